// The tests of a line after those above it, in each form.
ghost use Rattle.std.specs.Prelude.{◌≡◌};
ghost use Rattle.gather.specs.Tests.{of_form};

use crate::{Kind, SheetLines};
use lines::Line;
use model::limits::{LEAST_GAP, MOST_GAP, in_range};
use model::{Form, Refusal};
use rows::LineTests;
use rows::faults::first_fault;

fn of_form(form: Form, read: Line) -> bool
    ensures { result ≡ of_form form read }
{
    match read {
        Line::Gap(_) | Line::Window(_) | Line::Train(_) => form == Form::Windows,
        Line::FixedTrain(_) => form == Form::Timetable,
        Line::Order(_) => true,
    }
}

impl SheetLines {
    ghost use Rattle.std.specs.Prelude.{◌≡◌};
    ghost use Rattle.gather.specs.Tests.{Counts, kind_tests, line_fault};

    // The tests of a line of its kind.
    #[tactic(auto, unfolding(crate::specs::Tests::kind_tests))]
    fn tests(&self, read: Line) -> LineTests
        requires { Counts self.now }
        ensures { result ≡ kind_tests self.now read }
    {
        let late_enough = self.above <= Some(Kind::from(read));
        match read {
            Line::Gap(g) => LineTests {
                late_enough,
                few: self.gap.is_none(),
                in_range: in_range(LEAST_GAP, MOST_GAP, g.gap),
                in_order: true,
            },
            Line::Window(w) => self.windows.tests(late_enough, w),
            Line::Train(t) => self.trains.tests(late_enough, t),
            Line::FixedTrain(t) => self.trains.fixed_tests(late_enough, t),
            Line::Order(o) => self.orders.tests(late_enough, o),
        }
    }

    // The first fault of a line; a line of the other form has fault 1.
    #[tactic(auto, unfolding(crate::specs::Tests::line_fault))]
    pub fn line_fault(&self, form: Form, line: usize, read: Line) -> Result<(), Refusal>
        requires { Counts self.now }
        ensures { result ≡ line_fault form line self.now read }
    {
        if !of_form(form, read) {
            return Err(Refusal::Malformed(line));
        }
        first_fault(line, self.tests(read))
    }
}

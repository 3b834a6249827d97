// The tests of a text after its last line: 5 and 7.
use crate::SheetLines;
use model::{Form, Refusal};
use places::are_enough;
use rows::faults::last_fault;

impl SheetLines {
    ghost use Rattle.std.specs.Prelude.{◌≡◌, ◌≤◌};
    ghost use Rattle.model.specs.Limits.{train_counts};
    ghost use Rattle.gather.specs.Tests.{complete, end_fault};

    // Each kind of the form is there.
    fn is_complete(&self, form: Form) -> bool
        ensures { result ≡ complete form self.now }
    {
        let windows = form == Form::Timetable || (self.gap.is_some() && 1 <= self.windows.count);
        windows && 1 <= self.trains.count && 1 <= self.orders.count
    }

    // The first fault after the last line.
    #[tactic(auto, unfolding(crate::specs::Tests::end_fault))]
    pub fn end_fault(&self, form: Form) -> Result<(), Refusal>
        requires { self.now.trains.count ≤ train_counts.most }
        ensures { result ≡ end_fault form self.now }
    {
        let roomy = are_enough(&self.trains.capacity, self.trains.count, self.orders.count);
        last_fault(self.is_complete(form), roomy)
    }
}

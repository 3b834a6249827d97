// Document 01, "The printed plan": a plan or a refusal as bytes in a lent buffer, which stays as found where they do not fit.
#![tactic(auto)]

ghost use Rattle.std.specs.Prelude.{List, ℕ};
ghost use Rattle.writing.specs.Writing.{Prints, Puts};
ghost use Rattle.layout.specs.Lines.{refusal_line};
ghost use Rattle.printer.specs.PlanBytes.{plan_bytes};

use fields::NamePlaces;
use model::Refusal;
use writing::Page;

// Prints a plan: the listed pairs (two numbers a pair), the train of each order, the times of each train (three numbers a train: departure, arrival, window)
// and the rounds, with the names of the orders from their places in the sheet's text. A lone last number of the pairs, and one or two last numbers of the
// times, are passed over.
pub fn print_plan(
    text: &[u8],
    names: NamePlaces,
    pairs: &[i64],
    train_of_order: &[u8],
    times: &[u32],
    rounds: usize,
    out: &mut [u8],
) -> Option<usize>
    ensures { Prints
        (plan_bytes text.now names pairs.now train_of_order.now times.now rounds)
        out.old result out.new }
{
    let plan = Plan {
        text,
        names,
        pairs,
        train_of_order,
        times,
        rounds,
    };
    print(&plan, out)
}

// Prints a refusal.
pub fn print_refusal(refusal: Refusal, out: &mut [u8]) -> Option<usize>
    ensures { Prints (refusal_line refusal) out.old result out.new }
{
    print(&refusal, out)
}

// What is printed, and its bytes.
trait Lines {
    ghost bytes: { Self → List ℕ };

    // Puts all its lines on a page.
    fn put_on(&self, page: &mut Page<'_>)
        ensures { Puts (bytes self.now) page.old page.new };
}

// Prints lines to the front of the buffer: a first pass counts their bytes, and a second one writes them where they fit.
fn print<L: Lines>(lines: &L, out: &mut [u8]) -> Option<usize>
    ensures { Prints (L.bytes lines.now) out.old result out.new }
{
    let mut counted = Page::counting(out);
    lines.put_on(&mut counted);
    counted.place?;
    let mut page = Page::writing(out);
    lines.put_on(&mut page);
    page.place
}

// The parts of a plan.
#[derive(Clone, Copy)]
struct Plan<'a> {
    text: &'a [u8],
    names: NamePlaces,
    pairs: &'a [i64],
    train_of_order: &'a [u8],
    times: &'a [u32],
    rounds: usize,
}

impl Lines for Plan<'_> {
    ghost bytes = { λ p. plan_bytes p.text.now p.names p.pairs.now p.train_of_order.now p.times.now p.rounds };

    fn put_on(&self, page: &mut Page<'_>) {
        layout::pair_lines(page, self.pairs);
        layout::time_lines(page, self.times);
        layout::order_lines(page, self.text, self.names, self.train_of_order);
        layout::rounds_line(page, self.rounds);
    }
}

impl Lines for Refusal {
    ghost bytes = { refusal_line };

    fn put_on(&self, page: &mut Page<'_>) {
        layout::refusal_line(page, *self);
    }
}

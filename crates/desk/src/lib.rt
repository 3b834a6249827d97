// From the text of a sheet to the bytes of its printed plan.
#![tactic(auto)]

ghost use Rattle.std.specs.Prelude.{◌≡◌, List, ℤ};
ghost use Rattle.model.specs.Memory.{sheet_of};
ghost use Rattle.model.specs.Replies.{listed_as};
ghost use Rattle.planner.specs.Listing.{ListingCall};
ghost use Rattle.desk.specs.Printing.{form_of, PlanBytes, SheetBytes, TextBytes, TextPrinted, Put};

use areas::{first_orders, first_pairs, first_times, last_arrival};
use fields::NamePlaces;
use model::limits::{MOST_ORDERS, MOST_PAIR_NUMBERS, MOST_PRINTED, MOST_TIME_NUMBERS};
use model::{Form, Listed, Sheet};
use sheet::Reading;

// Reads a text, lists the pairs of its sheet, chooses the plan for the last of them, and prints it or the refusal to the front of the page, which is long
// enough for each. Gives how many bytes it printed.
pub fn print_text(text: &[u8], page: &mut [u8; MOST_PRINTED]) -> usize
    ensures { TextPrinted text.now page.old result page.new }
{
    // There is always a length: the contract says how many bytes a text has, and that they fit.
    put_text(text, page).unwrap_or(0)
}

// The same in a buffer that may be too short.
fn put_text(text: &[u8], out: &mut [u8]) -> Option<usize>
    ensures { Put (TextBytes text.now) out.old result out.new }
{
    let form = form_of(text);
    match sheet::read(text, form) {
        Ok(Reading { sheet, names }) => put_sheet(text, names, sheet, out),
        Err(refusal) => printer::print_refusal(refusal, out),
    }
}

// A first byte `X` means the timetable form.
#[tactic(auto, unfolding(crate::specs::Printing::form_of))]
fn form_of(text: &[u8]) -> Form
    ensures { result ≡ form_of text.now }
{
    match text {
        [b'X', ..] => Form::Timetable,
        _ => Form::Windows,
    }
}

// Lists the pairs of a text's sheet, in an area that is long enough for every sheet, and prints the plan or the refusal.
fn put_sheet(text: &[u8], names: NamePlaces, sheet: Sheet, out: &mut [u8]) -> Option<usize>
    ensures { Put (SheetBytes text.now names (sheet_of sheet)) out.old result out.new }
{
    let mut pairs: [i64; MOST_PAIR_NUMBERS] = [0; MOST_PAIR_NUMBERS];
    match listing::list(sheet, &mut pairs) {
        Ok(
            Listed {
                pairs: count,
                rounds,
            },
        ) => put_plan(text, names, sheet, &pairs, count, rounds, out),
        Err(refusal) => printer::print_refusal(refusal, out),
    }
}

// Chooses the plan for the last listed arrival, in areas that are long enough for every sheet, and prints it below the pairs, which a listing call has
// left.
fn put_plan(
    text: &[u8],
    names: NamePlaces,
    sheet: Sheet,
    pairs: &[i64],
    count: usize,
    rounds: usize,
    out: &mut [u8],
) -> Option<usize>
    requires { (found : List ℤ) × ListingCall (sheet_of sheet) (listed_as count rounds) pairs.now found }
    ensures { Put (PlanBytes text.now names (sheet_of sheet) count rounds pairs.now)
        out.old result out.new }
{
    let mut train_of_order: [u8; MOST_ORDERS] = [0; MOST_ORDERS];
    let mut times: [u32; MOST_TIME_NUMBERS] = [0; MOST_TIME_NUMBERS];
    let wish = last_arrival(pairs, count);
    let choice = choosing::choose(sheet, wish, &mut train_of_order, &mut times);
    // That wish is never refused: the contract says that a plan is chosen.
    if let Err(refusal) = choice {
        return printer::print_refusal(refusal, out);
    }
    let listed = first_pairs(pairs, count);
    let loaded = first_orders(&train_of_order, sheet.order_count);
    let timed = first_times(&times, sheet.train_count);
    printer::print_plan(text, names, listed, loaded, timed, rounds, out)
}

// The part of a plan that has gone (document 02, No. 13), in columns: test 21 of it, and what a search behind it sets out from.
#![tactic(auto)]

mod behind;
mod well;

ghost use Rattle.std.specs.Prelude.{◌≡◌, ◌≤◌, leb};
ghost use Rattle.numbers.specs.Counting.{nth};
ghost use Rattle.model.specs.Memory.{sheet_of};
ghost use Rattle.model.specs.Sheet.{places as K};
ghost use Rattle.model.specs.Limits.{train_counts};
ghost use Rattle.foreign.specs.Gathered.{OfRows};
ghost use Rattle.gone.specs.GonePart.{gone_part};
ghost use Rattle.gone.specs.Ready.{CanSetOut, SetOut};

use crate::behind::behind;
use crate::well::went_well;
use foreign::Given;
use foreign::fit::column_of;
use model::Refusal;
use model::admitted::AdmittedSheet;
use places::are_enough;
use search::Outset;

// Whether the trains have places for n orders.
fn has_places(outset: Outset, q: usize, n: usize) -> bool
    requires { q ≤ train_counts.most }
    ensures { result ≡ leb n (K (nth outset.capacity) q) }
{
    let capacity = outset.capacity;
    are_enough(&capacity, q, n)
}

// Sets out behind the gone trains: 21 unless they went well, 8 if the orders left outnumber the other trains' places.
pub fn set_out(
    sheet: AdmittedSheet,
    departures: &[u32],
    given: Given,
    minute: u32,
) -> Result<Outset, Refusal>
    ensures is { OfRows given (λ rows. SetOut sheet.columns (gone_part departures.now rows minute) result) }
    ensures sets { CanSetOut sheet.columns result }
{
    if !went_well(sheet, departures, given, minute) {
        return Err(Refusal::GoneWrong);
    }
    let train = given.train;
    let departure = column_of(departures);
    let outset = behind(sheet, departures.len(), train, departure, minute);
    if !has_places(outset, sheet.columns.train_count, sheet.columns.order_count) {
        return Err(Refusal::NoSchedule);
    }
    Ok(outset)
}

// Checking: whether a foreign plan is a schedule of a sheet, its pair, and whether that pair is listed. The pairs area takes the list.
#![tactic(auto)]

mod judging;
mod listed;

ghost use Rattle.foreign.specs.Gathered.{OfRows};
ghost use Rattle.checker.specs.Checking.{CheckingCall};

use crate::judging::judge;
use crate::listed::beside;
use borders::AnySheet;
use foreign::{Given, gather};
use listing::list;
use model::{Checked, Refusal, Row};

// Checks a plan whose rows are gathered against a sheet: 4, 5, 2, 6, 7 and 10 as for listing, then 12 and 13, and then the list.
pub fn check_gathered<S: AnySheet>(
    sheet: S,
    departures: &[u32],
    given: Given,
    pairs: &mut [i64],
) -> Result<Checked, Refusal>
    ensures { OfRows given (λ rows. CheckingCall (S.meant sheet) departures.now rows result pairs.new pairs.old) }
{
    let sheet = room::for_listing(sheet.to_sheet(), pairs.len())?;
    let pair = judge(sheet, departures, given)?;
    let reply = list(sheet.columns, pairs);
    beside(reply, pair, pairs)
}

// Checks a foreign plan, its rows a lent list of records, against a sheet.
pub fn check<S: AnySheet>(
    sheet: S,
    departures: &[u32],
    rows: &[Row],
    pairs: &mut [i64],
) -> Result<Checked, Refusal>
    ensures { CheckingCall (S.meant sheet) departures.now rows.now result pairs.new pairs.old }
{
    check_gathered(sheet, departures, gather(rows), pairs)
}

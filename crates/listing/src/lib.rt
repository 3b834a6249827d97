// Listing: the pairs, and how many rounds were made. A sheet in memory goes in by value, and a call is lent the pairs area alone.
#![tactic(auto)]

ghost use Rattle.std.specs.Prelude.{◌≡◌};
ghost use Rattle.model.specs.Memory.{sheet_of};
ghost use Rattle.rounds.specs.SettingOut.{Sets};
ghost use Rattle.rounds.specs.Answers.{list_from as listed_from};
ghost use Rattle.rounds.specs.Areas.{ListRoom};
ghost use Rattle.rounds.specs.Told.{ListTold};
ghost use Rattle.search.specs.Setting.{outset_of};
ghost use Rattle.planner.specs.Outcome.{listed_so};
ghost use Rattle.planner.specs.Listing.{ListingCall};

use borders::AnySheet;
use model::admitted::AdmittedSheet;
use model::{Listed, Refusal};
use recording::list_pair;
use search::Outset;
use search::round::round_from;
use search::start::{ordinary, start_from};

// Lists the pairs of a sheet, two numbers a pair: last arrival, worst weighted lateness.
pub fn list<S: AnySheet>(sheet: S, pairs: &mut [i64]) -> Result<Listed, Refusal>
    ensures { ListingCall (S.meant sheet) result pairs.new pairs.old }
{
    let sheet = room::for_listing(sheet.to_sheet(), pairs.len())?;
    list_from(sheet, ordinary(sheet), pairs)
}

// Lists the pairs of an admitted sheet from an outset, in an area that has room. The rounds end by themselves.
pub fn list_from(sheet: AdmittedSheet, outset: Outset, pairs: &mut [i64]) -> Result<Listed, Refusal>
    requires room { ListRoom (sheet_of sheet.columns) pairs.old }
    requires sets { Sets (sheet_of sheet.columns) (outset_of sheet.columns.order_count outset) }
    ensures { ListTold (listed_from (sheet_of sheet.columns) (outset_of sheet.columns.order_count outset)) result pairs.new pairs.old }
{
    let mut progress = start_from(outset);
    let mut count: usize = 0;
    // a while: how many rounds come is known as the search ends
    while !progress.ended {
        let before = progress.last;
        progress = round_from(progress, sheet, outset);
        if progress.recorded.is_some() {
            count = list_pair(pairs, count, before, progress.last, progress.limit);
        }
    }
    listed(count, progress.rounds)
}

// What is told of this many pairs and rounds: where nothing is listed there is no schedule.
fn listed(pairs: usize, rounds: usize) -> Result<Listed, Refusal>
    ensures { result ≡ listed_so pairs rounds }
{
    if pairs == 0 {
        return Err(Refusal::NoSchedule);
    }
    Ok(Listed { pairs, rounds })
}

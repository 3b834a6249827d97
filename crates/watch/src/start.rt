// The start of a search: the tests, of the sheet and of all three areas, and no round.
ghost use Rattle.rounds.specs.ByRound.{all_areas};
ghost use Rattle.watch.specs.Calls.{StartCall};

use crate::State;
use crate::keeping::keep;
use borders::AnySheet;
use model::Refusal;
use search::start::start_search;

// Starts a search on a sheet. Of the areas only the lengths are read.
pub fn start<S: AnySheet>(
    sheet: S,
    pairs: &[i64],
    train_of_order: &[u8],
    times: &[u32],
) -> Result<State, Refusal>
    ensures { StartCall (S.meant sheet) (all_areas pairs.now train_of_order.now times.now) result }
{
    let sheet = room::for_search(
        sheet.to_sheet(),
        pairs.len(),
        train_of_order.len(),
        times.len(),
    )?;
    Ok(keep(start_search(sheet), 0))
}

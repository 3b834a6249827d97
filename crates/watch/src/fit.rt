// Whether a call can go on from a state, which may hold any numbers, with this sheet and these areas.
ghost use Rattle.numbers.specs.DecidesLaws.{Decides};
ghost use Rattle.model.specs.Memory.{sheet_of};
ghost use Rattle.watch.specs.Fit.{Fits};

use crate::State;
use crate::keeping::resume;
use model::Sheet;
use model::admitted::AdmittedSheet;

// The sheet passes the tests, the areas have room, no more pairs are recorded than rounds were made and no more of these than the sheet's figure, and while the
// search goes on a round can be made.
pub fn fits(state: State, sheet: &Sheet, pairs: usize, trains: usize, times: usize) -> bool
    ensures { Decides (Fits (sheet_of sheet.now) state pairs trains times) result }
{
    let Ok(()) = room::test_for_search(sheet, pairs, trains, times) else {
        return false;
    };
    let sheet = AdmittedSheet { columns: *sheet };
    let most = bound::figure(sheet);
    let few = (state.pairs <= state.rounds) & (state.rounds <= most);
    if state.ended != 0 {
        return few;
    }
    let progress = resume(state);
    search::fit::fits(progress, sheet) & few
}

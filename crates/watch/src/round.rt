// One round a call.
ghost use Rattle.std.specs.Prelude.{◌≡◌, length};
ghost use Rattle.model.specs.Memory.{sheet_of};
ghost use Rattle.rounds.specs.ByRound.{all_areas};
ghost use Rattle.watch.specs.Fit.{Fits};
ghost use Rattle.watch.specs.Calls.{RoundCall};
ghost use Rattle.watch.specs.Advance.{Advanced};

use crate::fit::fits;
use crate::keeping::{keep, resume, said};
use crate::{Moved, State};
use borders::AnySheet;
use model::RoundReply;
use model::admitted::AdmittedSheet;
use recording::{list_pair, put_times, put_trains};

// Makes one round of a search that goes on. A better plan's pair is listed, and the plan is written over the one before.
fn advance(
    state: State,
    sheet: AdmittedSheet,
    pairs: &mut [i64],
    train_of_order: &mut [u8],
    times: &mut [u32],
) -> State
    requires fits { Fits (sheet_of sheet.columns) state (length pairs.old) (length train_of_order.old) (length times.old) }
    requires ended_value { state.ended ≡ 0 }
    ensures { Advanced (sheet_of sheet.columns) state result (all_areas pairs.new train_of_order.new times.new)
        (all_areas pairs.old train_of_order.old times.old) }
{
    let progress = search::round::round(resume(state), sheet);
    let Some(timed) = progress.recorded else {
        return keep(progress, state.pairs);
    };
    let count = list_pair(
        pairs,
        state.pairs,
        state.last,
        progress.last,
        progress.limit,
    );
    put_trains(progress.train, sheet.columns.order_count, train_of_order);
    put_times(
        timed.departure,
        timed.arrival,
        timed.window,
        sheet.columns.train_count,
        times,
    );
    keep(progress, count)
}

// Moves a search on a sheet by one round; an ended one stays as it is and is told again. A state that is not one of a search of this sheet in these areas is
// told as ended with no pair after no round, and nothing is changed.
pub fn round<S: AnySheet>(
    state: State,
    sheet: S,
    pairs: &mut [i64],
    train_of_order: &mut [u8],
    times: &mut [u32],
) -> Moved
    ensures { RoundCall (S.meant sheet) state result (all_areas pairs.new train_of_order.new times.new)
        (all_areas pairs.old train_of_order.old times.old) }
{
    let sheet = sheet.to_sheet();
    if !fits(
        state,
        &sheet,
        pairs.len(),
        train_of_order.len(),
        times.len(),
    ) {
        return Moved {
            state,
            reply: RoundReply::Ended {
                pairs: 0,
                rounds: 0,
            },
        };
    }
    if state.ended != 0 {
        return Moved {
            state,
            reply: said(state),
        };
    }
    // `fits` has tested it
    let sheet = AdmittedSheet { columns: sheet };
    let next = advance(state, sheet, pairs, train_of_order, times);
    Moved {
        state: next,
        reply: said(next),
    }
}

// From the state that a caller holds to the search's progress, and back.
ghost use Rattle.std.specs.Prelude.{◌≡◌};
ghost use Rattle.watch.specs.State.{no_state, progress_of, state_of, said_of};

use crate::State;
use model::limits::MOST_ORDERS;
use model::{Refusal, RoundReply};
use search::Progress;

// The state of no search.
pub fn no_state() -> State
    ensures { result ≡ no_state }
{
    State {
        pairs: 0,
        rounds: 0,
        limit: 0,
        last: 0,
        ended: 0,
        train: [0; MOST_ORDERS],
        latest: [0; MOST_ORDERS],
    }
}

// The progress of a search, without the times of the last round.
pub fn resume(state: State) -> Progress
    ensures { result ≡ progress_of state }
{
    let latest = state.latest;
    let train = state.train;
    Progress {
        latest,
        train,
        recorded: None,
        limit: state.limit,
        last: state.last,
        rounds: state.rounds,
        ended: state.ended != 0,
    }
}

// What is kept of a progress from call to call, beside how many pairs are recorded.
pub fn keep(progress: Progress, pairs: usize) -> State
    ensures { result ≡ state_of progress pairs }
{
    let train = progress.train;
    let latest = progress.latest;
    State {
        pairs,
        rounds: progress.rounds,
        limit: progress.limit,
        last: progress.last,
        ended: progress.ended as u8,
        train,
        latest,
    }
}

// What a round call says of the state that it leaves: where nothing is recorded at the end there is no schedule.
pub fn said(state: State) -> RoundReply
    ensures { result ≡ said_of state }
{
    if state.ended == 0 {
        return RoundReply::GoesOn;
    }
    if state.pairs == 0 {
        return RoundReply::Refused(Refusal::NoSchedule);
    }
    RoundReply::Ended {
        pairs: state.pairs,
        rounds: state.rounds,
    }
}

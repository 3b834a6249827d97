// What starting a search and moving it by one round return.
#![tactic(auto)]

ghost use Rattle.std.specs.Prelude.{◌≡◌};

use exported::Cause;
use model::{Refusal, RoundReply};
use watch::{Moved, State, no_state};

// What a start gives: the state, or the cause beside noughts.
#[repr(C)]
#[derive(Clone, Copy)]
pub struct Start {
    pub cause: Cause,
    pub state: State,
}

// What a round call gives: the next state, and whether the search has ended; then how many pairs are listed and how many rounds were made, or the cause beside
// 0 and 0. C has no Option, so the end is a flag.
#[repr(C)]
#[derive(Clone, Copy)]
pub struct Round {
    pub cause: Cause,
    pub ended: bool,
    pub pairs: usize,
    pub rounds: usize,
    pub state: State,
}

impl From<Result<State, Refusal>> for Start {
    ghost use Rattle.watched.specs.ExportedWatching.{start_of};

    ghost from_gives = { λ reply start. start ≡ start_of reply };

    fn from(reply: Result<State, Refusal>) -> Start {
        match reply {
            Ok(state) => Start {
                cause: Cause::NONE,
                state,
            },
            Err(refusal) => Start {
                cause: Cause::from(refusal),
                state: no_state(),
            },
        }
    }
}

impl From<Moved> for Round {
    ghost use Rattle.watched.specs.ExportedWatching.{round_of};

    ghost from_gives = { λ moved round. round ≡ round_of moved };

    fn from(moved: Moved) -> Round {
        let state = moved.state;
        match moved.reply {
            RoundReply::GoesOn => Round {
                cause: Cause::NONE,
                ended: false,
                pairs: 0,
                rounds: 0,
                state,
            },
            RoundReply::Ended { pairs, rounds } => Round {
                cause: Cause::NONE,
                ended: true,
                pairs,
                rounds,
                state,
            },
            RoundReply::Refused(refusal) => Round {
                cause: refusal.into(),
                ended: true,
                pairs: 0,
                rounds: 0,
                state,
            },
        }
    }
}

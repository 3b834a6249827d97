// A search that is watched (document 02, No. 4): started, moved by one round a call, and looked at between rounds. The caller holds the state from call to
// call, and lends the same sheet and areas to each.
#![tactic(auto)]

mod fit;
mod keeping;
pub mod look;
pub mod round;
pub mod start;

pub use keeping::no_state;
use model::RoundReply;
use model::limits::MOST_ORDERS;

// Where a search stands between two calls, laid out as in C: how many pairs are recorded and how many rounds were made, the limit, the last arrival of the pair
// recorded last, whether the search has ended (not 0), each order's train in the last round (0 for none), and its latest train. Any numbers may stand in it.
#[repr(C)]
#[derive(Clone, Copy)]
pub struct State {
    pub pairs: usize,
    pub rounds: usize,
    pub limit: i64,
    pub last: u32,
    pub ended: u8,
    pub train: [u8; MOST_ORDERS],
    pub latest: [u8; MOST_ORDERS],
}

// What a round call gives: the next state, and whether the search goes on.
#[derive(Clone, Copy)]
pub struct Moved {
    pub state: State,
    pub reply: RoundReply,
}

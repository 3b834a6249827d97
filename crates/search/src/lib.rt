// The search: the rounds on an admitted sheet, one at a time, from an outset; document 01's own are those from the sheet alone. What a round records it leaves
// in the progress, for its caller to keep.
#![tactic(auto)]

pub mod fit;
pub mod round;
pub mod start;

use model::limits::{MOST_ORDERS, MOST_TRAINS};
use timing::Times;

// What a search sets out from: the places of each train, of which there may be none; each order's latest train at first; and the instant from which each
// train may leave.
#[derive(Clone, Copy)]
pub struct Outset {
    pub capacity: [u32; MOST_TRAINS],
    pub latest: [u8; MOST_ORDERS],
    pub since: [u32; MOST_TRAINS],
}

// Where a search stands between rounds: each order's latest train, and its train in the last round, from which the next loading begins; the times of the last
// round's plan, if it was recorded (better than all before); the limit and the last arrival of the pair recorded last; how many rounds were made, and whether
// the search has ended: a flag, as in the state that C holds, since the limit and the counts stand on after the end.
#[derive(Clone, Copy)]
pub struct Progress {
    pub latest: [u8; MOST_ORDERS],
    pub train: [u8; MOST_ORDERS],
    pub recorded: Option<Times>,
    pub limit: i64,
    pub last: u32,
    pub rounds: usize,
    pub ended: bool,
}

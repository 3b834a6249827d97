// A look between rounds.
ghost use Rattle.watch.specs.Calls.{LookCall};

use crate::State;
use model::limits::NUMBERS_A_PAIR;

// How many pairs at the front of the pairs area are recorded so far. A state that counts more than the area holds is none of a search in it: there are none.
pub fn look(state: State, pairs: &[i64]) -> usize
    ensures { LookCall state pairs.now result }
{
    if state.pairs <= pairs.len() / NUMBERS_A_PAIR {
        return state.pairs;
    }
    0
}

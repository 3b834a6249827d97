// Columns of trains: train i stands at place i - 1.
#![tactic(auto)]

ghost use Rattle.std.specs.Prelude.{◌≡◌, ◌≤◌, leb};
ghost use Rattle.numbers.specs.Counting.{nth, each};
ghost use Rattle.model.specs.Limits.{train_counts};

use model::limits::MOST_TRAINS;

// The element of train i.
pub fn of_train(column: &[u32; MOST_TRAINS], i: u8) -> u32
    requires { (1 ≤ i) × (i ≤ train_counts.most) }
    ensures { result ≡ nth column.now i }
{
    column[usize::from(i - 1)]
}

// The element of the last of q trains.
pub fn last_of(column: [u32; MOST_TRAINS], q: usize) -> u32
    requires { (1 ≤ q) × (q ≤ train_counts.most) }
    ensures { result ≡ nth column q }
{
    column[q - 1]
}

// Whether none of the first q elements of a column is above the other's.
pub fn none_above(q: usize, column: [u32; MOST_TRAINS], other: [u32; MOST_TRAINS]) -> bool
    requires { q ≤ train_counts.most }
    ensures { result ≡ each (λ i. leb (nth column i) (nth other i)) q }
{
    let mut kept = true;
    for i in 0..q {
        kept = (column[i] <= other[i]) & kept;
    }
    kept
}

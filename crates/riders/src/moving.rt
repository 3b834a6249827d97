// Who rides which train, and how many ride each.
ghost use Rattle.std.specs.Prelude.{◌≡◌, cond, ◌<◌, ◌≤◌, max, eqb, set};
ghost use Rattle.numbers.specs.Counting.{at};
ghost use Rattle.model.specs.Limits.{order_counts, train_counts};
ghost use Rattle.columns.specs.Columns.{UpTo};
ghost use Rattle.riders.specs.Riders.{Stays, Counted};
ghost use Rattle.riders.specs.Standing.{waited};

use model::limits::MOST_ORDERS;

// Numbers of trains, and 0 for none.
pub const TRAINS_AND_NONE: usize = 33;

// Order j moves to train i, or to none.
pub fn move_order(
    n: usize,
    j: usize,
    i: u8,
    train: &mut [u8; MOST_ORDERS],
    riders: &mut [u8; TRAINS_AND_NONE],
)
    requires n_le_most { (n ≤ order_counts.most) × (j < n) × (i ≤ train_counts.most) × (at train.old j ≤ train_counts.most) }
    requires not_at { (¬ (at train.old j ≡ i)) × Counted n train.old riders.old }
    ensures moves { train.new ≡ set train.old j i }
    ensures counts { Counted n train.new riders.new }
{
    let from = train[j];
    riders[from as usize] -= 1;
    riders[i as usize] += 1;
    train[j] = i;
}

// Each of n orders that is above its latest train loses its train.
pub fn leave_late(
    n: usize,
    latest: &[u8; MOST_ORDERS],
    train: &mut [u8; MOST_ORDERS],
    riders: &mut [u8; TRAINS_AND_NONE],
)
    requires { (n ≤ order_counts.most) × UpTo train_counts.most n train.old × Counted n train.old riders.old }
    ensures leaves { Stays n latest.now train.old train.new }
    ensures counts { Counted n train.new riders.new }
{
    for j in 0..n {
        if latest[j] < train[j] {
            move_order(n, j, 0, train, riders);
        }
    }
}

// The last train that one of n orders without a train may ride; 0 where there is none.
#[tactic(auto, unfolding(crate::specs::Standing::picked))]
pub fn last_waited_for(n: usize, latest: &[u8; MOST_ORDERS], train: &[u8; MOST_ORDERS]) -> u8
    requires { n ≤ order_counts.most }
    ensures { result ≡ waited latest.now train.now n }
{
    let mut last: u8 = 0;
    for j in 0..n {
        let own = latest[j];
        last = last.max(if train[j] == 0 { own } else { 0 });
    }
    last
}

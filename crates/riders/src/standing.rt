// Orders by (release, number), which an order's standing joins in one number.
ghost use Rattle.std.specs.Prelude.{ℕ, Bool, ◌≡◌, ◌<◌, ◌≤◌, length};
ghost use Rattle.numbers.specs.Counting.{at};
ghost use Rattle.model.specs.Limits.{order_counts, train_counts, last_instant};
ghost use Rattle.columns.specs.Columns.{UpTo};
ghost use Rattle.riders.specs.Riders.{Counted};
ghost use Rattle.riders.specs.Standing.{standing, picked, best, least, Lowest};

use crate::moving::TRAINS_AND_NONE;
use model::limits::MOST_ORDERS;

// More than an order's number.
const NUMBERS: u32 = 256;

// Above every standing.
const BEYOND: u32 = 4294967295;

// The standing of the order at place j.
pub fn standing_of(release: &[u32; MOST_ORDERS], j: usize) -> u32
    requires { (j < order_counts.most) × (at release.now j ≤ last_instant) }
    ensures { result ≡ standing (at release.now) j }
{
    NUMBERS * release[j] + ((j as u32) + 1)
}

// What is picked of the standings of those of n orders that pass a test; `none` where none does. The loop has no branch, so the compiler takes many orders at
// once.
fn picked<T: Fn(usize) -> bool, P: Fn(u32, u32) -> u32>(
    n: usize,
    release: &[u32; MOST_ORDERS],
    passes: T,
    none: u32,
    pick: P,
) -> u32
    requires n_le_most { (n ≤ order_counts.most) × UpTo last_instant n release.now }
    requires may_test { (j : ℕ) → j < n → T.pre passes j }
    requires may_pick { P.IsAlwaysCallable pick }
    ensures { (test : ℕ → Bool) (op : ℕ → ℕ → ℕ) → ((j : ℕ) (b : Bool) → T.post passes j b → b ≡ test j)
        → ((a b v : ℕ) → P.post pick a b v → v ≡ op a b) → result ≡ picked op none test (standing (at release.now)) n }
{
    let mut so_far = none;
    for j in 0..n {
        let own = standing_of(release, j);
        so_far = pick(so_far, if passes(j) { own } else { none });
    }
    so_far
}

// The greatest standing among n orders that could come to train i; 0 where none could.
pub fn greatest_outside(
    n: usize,
    i: u8,
    release: &[u32; MOST_ORDERS],
    latest: &[u8; MOST_ORDERS],
    train: &[u8; MOST_ORDERS],
) -> u32
    requires { (n ≤ order_counts.most) × UpTo last_instant n release.now }
    ensures { result ≡ best (at release.now) latest.now train.now i n }
{
    picked(
        n,
        release,
        |j| (train[j] < i) & (i <= latest[j]),
        0,
        u32::max,
    )
}

// The least standing among n orders that ride train i; BEYOND where none does.
pub fn least_on(n: usize, i: u8, release: &[u32; MOST_ORDERS], train: &[u8; MOST_ORDERS]) -> u32
    requires { (n ≤ order_counts.most) × UpTo last_instant n release.now }
    ensures { result ≡ least (at release.now) train.now i n }
{
    picked(n, release, |j| train[j] == i, BEYOND, u32::min)
}

// The riders of each train, and of none at place 0: how many they are, and the least standing among them.
#[derive(Clone, Copy)]
pub struct Riders {
    pub riders: [u8; TRAINS_AND_NONE],
    pub low: [u32; TRAINS_AND_NONE],
}

// The riders among n orders on these trains.
pub fn survey(n: usize, release: &[u32; MOST_ORDERS], train: &[u8; MOST_ORDERS]) -> Riders
    requires n_le_most { (n ≤ order_counts.most) × UpTo last_instant n release.now × UpTo train_counts.most n train.now }
    requires train_len { length train.now ≡ order_counts.most }
    ensures counts { Counted n train.now result.riders }
    ensures lows { Lowest n (at release.now) train.now result.low }
{
    let mut riders = [0u8; TRAINS_AND_NONE];
    let mut low = [BEYOND; TRAINS_AND_NONE];
    for j in 0..n {
        let own = standing_of(release, j);
        let i = train[j] as usize;
        riders[i] += 1;
        low[i] = low[i].min(own);
    }
    Riders { riders, low }
}

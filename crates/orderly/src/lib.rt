// Whether trains that come from outside are such as a loading may begin from.
#![tactic(auto)]

ghost use Rattle.std.specs.Prelude.{◌≡◌, ℕ, ◌≤◌, ◌<◌, length};
ghost use Rattle.numbers.specs.Counting.{at, nth};
ghost use Rattle.numbers.specs.DecidesLaws.{Decides};
ghost use Rattle.model.specs.Limits.{order_counts, train_counts, last_instant};
ghost use Rattle.columns.specs.Columns.{UpTo};
ghost use Rattle.loading.specs.Orderly.{Orderly};
ghost use Rattle.orderly.specs.Bars.{Room, Barred, Skip, Skips, Under, AllUnder};

use model::limits::{MOST_ORDERS, MOST_TRAINS};
use riders::moving::TRAINS_AND_NONE;
use riders::standing::{Riders, standing_of, survey};

// Whether none of the first n trains of a column is above q. (`none_above` of `columns` compares two columns, and of trains.)
pub fn none_above(n: usize, column: &[u8; MOST_ORDERS], q: usize) -> bool
    requires { (n ≤ order_counts.most) × (q ≤ train_counts.most) }
    ensures { Decides (UpTo q n column.now) result }
{
    let most = q as u8;
    let mut kept = true;
    // no exit, as `all` has: so the compiler takes many trains at once
    for &train in &column[..n] {
        kept &= train <= most;
    }
    kept
}

// Whether none of q trains has more orders than places. (`have_room` of `rules` counts the orders; here the counts stand in a column.)
fn have_room(q: usize, capacity: &[u32; MOST_TRAINS], riders: [u8; TRAINS_AND_NONE]) -> bool
    requires { q ≤ train_counts.most }
    ensures { Decides (Room q (nth capacity.now) riders) result }
{
    let mut kept = true;
    // no exit here either
    for i in 0..q {
        kept &= u32::from(riders[i + 1]) <= capacity[i];
    }
    kept
}

// Each train's bar, which whoever may ride it and rides an earlier one must stand below: the least standing on it, or 0 where it is not full.
#[tactic(auto, using(crate::proofs::BarLaws::barred_more))]
fn find_bars(
    q: usize,
    capacity: &[u32; MOST_TRAINS],
    riders: [u8; TRAINS_AND_NONE],
    low: &[u32; TRAINS_AND_NONE],
) -> [u32; TRAINS_AND_NONE]
    requires { q ≤ train_counts.most }
    ensures { Barred q (nth capacity.now) riders low.now result }
{
    let mut bars = [0u32; TRAINS_AND_NONE];
    for i in 1..=q {
        let full = u32::from(riders[i]) == capacity[i - 1];
        bars[i] = if full { low[i] } else { 0 };
    }
    bars
}

// The first train behind i whose bar is lower than that of i, found by those of the trains behind it; q + 1 where there is none.
fn next_lower(i: u8, q: u8, bars: &[u32; TRAINS_AND_NONE], next: &[u8; TRAINS_AND_NONE]) -> u8
    requires { (i < q) × (q ≤ train_counts.most) × Skips i q bars.now next.now }
    ensures { Skip i q bars.now result }
{
    let own = bars[i as usize];
    let mut m = i + 1;
    // a while, since it jumps
    while m <= q && own <= bars[m as usize] {
        m = next[m as usize];
    }
    m
}

// For each of q trains the first one behind it whose bar is lower; q + 1 where there is none.
fn find_skips(q: u8, bars: &[u32; TRAINS_AND_NONE]) -> [u8; TRAINS_AND_NONE]
    requires { (1 ≤ q) × (q ≤ train_counts.most) }
    ensures { Skips 0 q bars.now result }
{
    let mut next = [0u8; TRAINS_AND_NONE];
    next[q as usize] = q + 1;
    for i in (1..q).rev() {
        next[i as usize] = next_lower(i, q, bars, &next);
    }
    next
}

// Whether a standing is below the bars of all trains behind `from`, up to `to`. Behind a bar only a lower one is looked at.
fn is_under(
    own: u32,
    from: u8,
    to: u8,
    bars: &[u32; TRAINS_AND_NONE],
    next: &[u8; TRAINS_AND_NONE],
) -> bool
    requires from_le_most { (from ≤ train_counts.most) × (to ≤ train_counts.most) }
    requires by_index { (q : ℕ) × (to ≤ q) × (q ≤ train_counts.most) × Skips 0 q bars.now next.now }
    ensures { Decides (Under own from to bars.now) result }
{
    let mut i = from + 1;
    // a while, since it jumps
    while i <= to {
        if bars[i as usize] <= own {
            return false;
        }
        i = next[i as usize];
    }
    true
}

// Whether each of n orders that has a train stands below the bars of all later trains that it may ride.
fn all_under(
    n: usize,
    release: &[u32; MOST_ORDERS],
    latest: &[u8; MOST_ORDERS],
    train: &[u8; MOST_ORDERS],
    bars: &[u32; TRAINS_AND_NONE],
    next: &[u8; TRAINS_AND_NONE],
) -> bool
    requires n_le_most { (n ≤ order_counts.most) × UpTo last_instant n release.now × UpTo train_counts.most n train.now }
    requires by_index { (q : ℕ) × (q ≤ train_counts.most) × UpTo q n latest.now × Skips 0 q bars.now next.now }
    ensures { Decides (AllUnder n (at release.now) latest.now train.now bars.now) result }
{
    (0..n).all(|j| train[j] == 0
        || is_under(standing_of(release, j), train[j], latest[j], bars, next))
}

// Whether the trains of n orders are orderly.
pub fn are_orderly(
    n: usize,
    q: usize,
    release: &[u32; MOST_ORDERS],
    capacity: &[u32; MOST_TRAINS],
    latest: &[u8; MOST_ORDERS],
    train: &[u8; MOST_ORDERS],
) -> bool
    requires n_le_most { (n ≤ order_counts.most) × (1 ≤ q) × (q ≤ train_counts.most) × UpTo last_instant n release.now }
    requires up_to { UpTo q n latest.now × (length train.now ≡ order_counts.most) }
    ensures { Decides (Orderly n q (at release.now) (nth capacity.now) latest.now train.now) result }
{
    if !none_above(n, train, q) {
        return false;
    }
    let Riders { riders, low } = survey(n, release, train);
    if !have_room(q, capacity, riders) {
        return false;
    }
    let bars = find_bars(q, capacity, riders, &low);
    let next = find_skips(q as u8, &bars);
    all_under(n, release, latest, train, &bars, &next)
}

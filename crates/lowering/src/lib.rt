// Steps 4 and 5 of a round: the latest trains.
#![tactic(auto)]

pub mod lateness;

ghost use Rattle.std.specs.Prelude.{◌≡◌, ◌≤◌, leb, ltb, take};
ghost use Rattle.numbers.specs.Counting.{at, nth, count};
ghost use Rattle.model.specs.Limits.{last_instant, last_arrival, weight_range, capacity_range, train_counts, order_counts};
ghost use Rattle.model.specs.Sheet.{places as K};
ghost use Rattle.rounds.specs.Lowering.{latest_below, lower as lowered, crowded};
ghost use Rattle.columns.specs.Columns.{UpTo};
ghost use Rattle.lowering.specs.Ranged.{Ranged, ArrivesTo};

use crate::lateness::lateness_on;
use model::limits::{MOST_ORDERS, MOST_TRAINS};

// The greatest train, not above the present one i, on which the order's lateness is below y; 0 if there is none.
fn latest_below(weight: u32, due: u32, arrival: &[u32; MOST_TRAINS], y: i64, i: u8) -> u8
    requires { (weight ≤ weight_range.most) × (due ≤ last_instant) × (i ≤ train_counts.most) × UpTo last_arrival i arrival.now }
    ensures { result ≡ latest_below weight due (nth arrival.now) y i }
{
    for k in (1..=i).rev() {
        if lateness_on(weight, due, arrival, k) < y {
            return k;
        }
    }
    0
}

// The latest trains of n orders, each lowered under the limit y.
pub fn lower(
    n: usize,
    weight: [u32; MOST_ORDERS],
    due: [u32; MOST_ORDERS],
    arrival: [u32; MOST_TRAINS],
    y: i64,
    mut latest: [u8; MOST_ORDERS],
) -> [u8; MOST_ORDERS]
    requires { Ranged n weight due × ArrivesTo n latest arrival }
    ensures { take n result ≡ lowered n (at weight) (at due) (nth arrival) y (take n latest) }
{
    for j in 0..n {
        latest[j] = latest_below(weight[j], due[j], &arrival, y, latest[j]);
    }
    latest
}

// Whether more of the first n orders than these places have a latest train ≤ i. The loop reads and counts bytes only, so that it runs many orders at
// once.
fn crowded_at(latest: &[u8; MOST_ORDERS], n: usize, i: usize, places: u32) -> bool
    requires { (n ≤ order_counts.most) × (i ≤ train_counts.most) }
    ensures { result ≡ ltb places (count (λ j. leb (at latest.now j) i) n) }
{
    let train = i as u8;
    let mut orders: u8 = 0;
    for &last in &latest[..n] {
        orders += (last <= train) as u8;
    }
    places < u32::from(orders)
}

// Whether for some i from 0 to q more than K_i of n orders have a latest train ≤ i. At i = q there is room for all.
pub fn is_crowded(
    n: usize,
    q: usize,
    capacity: [u32; MOST_TRAINS],
    latest: [u8; MOST_ORDERS],
) -> bool
    requires { (n ≤ order_counts.most) × (q ≤ train_counts.most) × UpTo capacity_range.most q capacity × (n ≤ K (nth capacity) q) }
    ensures { result ≡ crowded n (nth capacity) (take n latest) q }
{
    let mut crowded = false;
    let mut places: u32 = 0;
    for i in 0..q {
        crowded = crowded_at(&latest, n, i, places) | crowded;
        places += capacity[i];
    }
    crowded
}

// Weighted lateness, and the greatest of a plan.
ghost use Rattle.std.specs.Prelude.{◌≡◌, ◌≤◌, take};
ghost use Rattle.numbers.specs.Counting.{at, nth};
ghost use Rattle.model.specs.Limits.{last_instant, last_arrival, weight_range, train_counts};
ghost use Rattle.model.specs.Lateness.{lateness, greatest_lateness};
ghost use Rattle.lowering.specs.Ranged.{Ranged, Arrives};

use columns::of_train;
use model::limits::{FIRST_LIMIT, MOST_ORDERS, MOST_TRAINS};

// The weighted lateness of an order on train i.
pub fn lateness_on(weight: u32, due: u32, arrival: &[u32; MOST_TRAINS], i: u8) -> i64
    requires weight_le_most { (weight ≤ weight_range.most) × (due ≤ last_instant) }
    requires le_i { (1 ≤ i) × (i ≤ train_counts.most) × (nth arrival.now i ≤ last_arrival) }
    ensures { result ≡ lateness weight (nth arrival.now i) due }
{
    i64::from(weight) * (i64::from(of_train(arrival, i)) - i64::from(due))
}

// The greatest weighted lateness of n orders on these trains; it starts below every lateness.
pub fn worst_of(
    n: usize,
    weight: [u32; MOST_ORDERS],
    due: [u32; MOST_ORDERS],
    train: [u8; MOST_ORDERS],
    arrival: [u32; MOST_TRAINS],
) -> i64
    requires { (1 ≤ n) × Ranged n weight due × Arrives n train arrival }
    ensures { result ≡ greatest_lateness n (at weight) (at due) (take n train) (nth arrival) }
{
    let mut worst = 0 - FIRST_LIMIT;
    for j in 0..n {
        worst = lateness_on(weight[j], due[j], &arrival, train[j]).max(worst);
    }
    worst
}

// The places on trains, and test 7 of a text and of a sheet in memory. Inner: both ask for no more trains than there may be.
#![tactic(auto)]

ghost use Rattle.std.specs.Prelude.{◌≡◌, ◌≤◌, leb, length};
ghost use Rattle.numbers.specs.Counting.{nth};
ghost use Rattle.model.specs.Sheet.{places};
ghost use Rattle.model.specs.Limits.{train_counts};

// "K_i is k_1 + … + k_i": the places of the first trains. At most 32 numbers of 32 bits do not wrap 64.
fn places_of(capacity: &[u32], trains: usize) -> usize
    requires { (trains ≤ length capacity.now) × (trains ≤ train_counts.most) }
    ensures { result ≡ places (nth capacity.now) trains }
{
    let mut sum: usize = 0;
    for &places in &capacity[..trains] {
        sum += places as usize;
    }
    sum
}

// Test 7: the trains have a place for each order.
pub fn are_enough(capacity: &[u32], trains: usize, orders: usize) -> bool
    requires { (trains ≤ length capacity.now) × (trains ≤ train_counts.most) }
    ensures { result ≡ leb orders (places (nth capacity.now) trains) }
{
    orders <= places_of(capacity, trains)
}

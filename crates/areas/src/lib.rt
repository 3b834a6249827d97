// What is read in the areas that the planning calls leave.
#![tactic(auto)]

ghost use Rattle.std.specs.Prelude.{◌≡◌, ◌*◌, take};
ghost use Rattle.model.specs.Limits.{numbers_a_pair, numbers_a_train};
ghost use Rattle.areas.specs.Wish.{arrival_of, ForLast};

use model::limits::{LAST_ARRIVAL, NUMBERS_A_PAIR, NUMBERS_A_TRAIN};

// The numbers of the first pairs; all numbers if there are no more.
pub fn first_pairs(pairs: &[i64], count: usize) -> &[i64]
    ensures { result.now ≡ take (numbers_a_pair * count) pairs.now }
{
    front(pairs, NUMBERS_A_PAIR.saturating_mul(count))
}

// The arrival of the last of the first pairs; 0 if there are not so many.
pub fn last_arrival(pairs: &[i64], count: usize) -> u32
    ensures { ForLast count pairs.now result }
{
    if count == 0 || pairs.len() / NUMBERS_A_PAIR < count {
        return 0;
    }
    arrival_of(pairs[NUMBERS_A_PAIR * (count - 1)])
}

// A number of the pairs area as an arrival; 0 if it is none.
fn arrival_of(number: i64) -> u32
    ensures { result ≡ arrival_of number }
{
    match u32::try_from(number) {
        Ok(arrival) if arrival <= LAST_ARRIVAL => arrival,
        _ => 0,
    }
}

// The trains of the first orders.
pub fn first_orders(trains: &[u8], orders: usize) -> &[u8]
    ensures { result.now ≡ take orders trains.now }
{
    front(trains, orders)
}

// The times of the first trains.
pub fn first_times(times: &[u32], trains: usize) -> &[u32]
    ensures { result.now ≡ take (numbers_a_train * trains) times.now }
{
    front(times, NUMBERS_A_TRAIN.saturating_mul(trains))
}

// The first elements of an area; all if there are no more.
fn front<T>(area: &[T], count: usize) -> &[T]
    ensures { result.now ≡ take count area.now }
{
    &area[..count.min(area.len())]
}

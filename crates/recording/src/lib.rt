// Step 3 of a round: a pair and its plan, to the lent areas. The list's part and the plan's part are apart.
#![tactic(auto)]

ghost use Rattle.std.specs.Prelude.{◌≡◌, ◌+◌, ◌*◌, ◌<◌, ◌≤◌, length, take};
ghost use Rattle.numbers.specs.Over.{over};
ghost use Rattle.model.specs.Limits.{most_pairs, numbers_a_pair, numbers_a_train, train_counts, order_counts};
ghost use Rattle.rounds.specs.Areas.{time_numbers};
ghost use Rattle.recording.specs.Recorded.{held_list, ListsMore};

use model::limits::{MOST_ORDERS, MOST_TRAINS, NUMBERS_A_PAIR, NUMBERS_A_TRAIN};

// ---- the list's part

// Lists a pair behind `count` others, the last of them with the arrival `last`, or over that one if its arrival is the same. Gives the number of pairs.
pub fn list_pair(pairs: &mut [i64], mut count: usize, last: u32, arrival: u32, worst: i64) -> usize
    requires { (numbers_a_pair * count + 1 < length pairs.old) × (count < most_pairs) }
    ensures lists { ListsMore (held_list count last pairs.old) (held_list result arrival pairs.new) arrival worst }
    ensures counts { (1 ≤ result) × (result ≤ count + 1) }
{
    if (count > 0) & (last == arrival) {
        count -= 1;
    }
    let k = NUMBERS_A_PAIR * count;
    pairs[k] = i64::from(arrival);
    pairs[k + 1] = worst;
    count + 1
}

// ---- the plan's part

// The train of each of n orders, to the front of the lent area.
pub fn put_trains(train: [u8; MOST_ORDERS], n: usize, out: &mut [u8])
    requires { (n ≤ order_counts.most) × (n ≤ length out.old) }
    ensures { out.new ≡ over (take n train) out.old }
{
    out[..n].copy_from_slice(&train[..n]);
}

// The departure, the arrival and the window of each of q trains, to the front of the lent area.
pub fn put_times(
    departure: [u32; MOST_TRAINS],
    arrival: [u32; MOST_TRAINS],
    window: [u8; MOST_TRAINS],
    q: usize,
    out: &mut [u32],
)
    requires { (q ≤ train_counts.most) × (numbers_a_train * q ≤ length out.old) }
    ensures { out.new ≡ over (time_numbers (take q departure) (take q arrival) (take q window) q) out.old }
{
    for i in 0..q {
        let k = NUMBERS_A_TRAIN * i;
        out[k] = departure[i];
        out[k + 1] = arrival[i];
        out[k + 2] = u32::from(window[i]);
    }
}

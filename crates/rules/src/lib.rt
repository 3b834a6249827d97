// The rules of a schedule, tested of a plan in columns, and the pair of a plan that keeps them. Train i stands at place i - 1 of every list of trains.
#![tactic(auto)]

pub mod departures;
pub mod pair;

ghost use Rattle.std.specs.Prelude.{◌≡◌, ◌||◌, ◌≤◌, leb, eqb, take};
ghost use Rattle.numbers.specs.Counting.{at, nth, count, every, each};
ghost use Rattle.model.specs.Memory.{sheet_of};
ghost use Rattle.model.specs.Limits.{train_counts, order_counts};
ghost use Rattle.model.specs.ScheduleTest.{is_schedule as is_schedule_of};
ghost use Rattle.columns.specs.Columns.{UpTo, Loaded};

use crate::departures::are_allowed;
use columns::of_train;
use model::admitted::AdmittedSheet;
use model::limits::{MOST_ORDERS, MOST_TRAINS};

// How many of n orders ride train i.
pub fn carried(train: &[u8; MOST_ORDERS], n: usize, i: u8) -> u32
    requires { n ≤ order_counts.most }
    ensures { result ≡ count (λ j. eqb (at train.now j) i) n }
{
    let mut orders: u32 = 0;
    for &own in &train[..n] {
        orders += (own == i) as u32;
    }
    orders
}

// Whether none of q trains carries more of n orders than it has places. (`have_room` of `orderly` reads counts; here they are counted.)
pub fn have_room(n: usize, q: usize, capacity: [u32; MOST_TRAINS], train: [u8; MOST_ORDERS]) -> bool
    requires { (n ≤ order_counts.most) × (q ≤ train_counts.most) }
    ensures { result ≡ each (λ i. leb (count (λ j. eqb (at train j) i) n) (nth capacity i)) q }
{
    let mut room = true;
    for i in 0..q {
        room = (carried(&train, n, (i + 1) as u8) <= capacity[i]) & room;
    }
    room
}

// Whether an order that has a train is not released after the train's departure.
fn is_released(release: u32, departure: &[u32; MOST_TRAINS], train: u8) -> bool
    requires { train ≤ train_counts.most }
    ensures { result ≡ (eqb train 0 || leb release (nth departure.now train)) }
{
    train == 0 || release <= of_train(departure, train)
}

// Whether none of n orders that have a train is released after its departure.
pub fn are_released(
    n: usize,
    release: [u32; MOST_ORDERS],
    train: [u8; MOST_ORDERS],
    departure: [u32; MOST_TRAINS],
) -> bool
    requires { (n ≤ order_counts.most) × UpTo train_counts.most n train }
    ensures { result ≡ every (λ j. eqb (at train j) 0 || leb (at release j) (nth departure (at train j))) n }
{
    let mut released = true;
    for j in 0..n {
        released = is_released(release[j], &departure, train[j]) & released;
    }
    released
}

// Whether the orders, each on a train, and the departures are a schedule.
pub fn is_schedule(
    sheet: AdmittedSheet,
    train: [u8; MOST_ORDERS],
    departure: [u32; MOST_TRAINS],
) -> bool
    requires { Loaded (sheet_of sheet.columns) train }
    ensures { result ≡ is_schedule_of (sheet_of sheet.columns) (take sheet.columns.order_count train) (take sheet.columns.train_count departure) }
{
    let n = sheet.columns.order_count;
    let capacity = sheet.columns.capacity;
    let release = sheet.columns.release;
    let room = have_room(n, sheet.columns.train_count, capacity, train);
    let released = are_released(n, release, train, departure);
    let allowed = are_allowed(sheet, departure);
    room & released & allowed
}

// What a search behind gone trains sets out from.
ghost use Rattle.std.specs.Prelude.{◌≡◌, cond, ◌≤◌, suc, eqb, replicate};
ghost use Rattle.numbers.specs.Counting.{at, count};
ghost use Rattle.model.specs.Memory.{sheet_of};
ghost use Rattle.model.specs.Limits.{train_counts, order_counts};
ghost use Rattle.gone.specs.GonePart.{Filled, Behind};

use model::admitted::AdmittedSheet;
use model::limits::{MOST_ORDERS, MOST_TRAINS};
use rules::carried;
use search::Outset;

// Two fills and no generic one: their columns have elements of two sizes, and a fill over a closure would be no plainer.

// The places: a gone train has them for its own orders only.
fn places_behind(
    n: usize,
    gone: usize,
    mut capacity: [u32; MOST_TRAINS],
    train: &[u8; MOST_ORDERS],
) -> [u32; MOST_TRAINS]
    requires { (n ≤ order_counts.most) × (gone ≤ train_counts.most) }
    ensures { Filled (λ k. count (λ j. eqb (at train.now j) (suc k)) n) (at capacity) gone result }
{
    for i in 0..gone {
        capacity[i] = carried(train, n, (i + 1) as u8);
    }
    capacity
}

// The instants: a gone train leaves when it left, the others no earlier than that minute.
fn since_behind(gone: usize, departure: [u32; MOST_TRAINS], minute: u32) -> [u32; MOST_TRAINS]
    requires { gone ≤ train_counts.most }
    ensures { Filled (at departure) (at (replicate train_counts.most minute)) gone result }
{
    let mut since = [minute; MOST_TRAINS];
    since[..gone].copy_from_slice(&departure[..gone]);
    since
}

// The latest train of an order: its own if it has gone, else the last.
fn latest_of(train: u8, last: u8) -> u8
    ensures { result ≡ cond (eqb train 0) last train }
{
    if train == 0 { last } else { train }
}

// The latest trains.
fn latest_behind(n: usize, last: u8, mut train: [u8; MOST_ORDERS]) -> [u8; MOST_ORDERS]
    requires { n ≤ order_counts.most }
    ensures { Filled (λ j. cond (eqb (at train j) 0) last (at train j)) (at train) n result }
{
    for j in 0..n {
        train[j] = latest_of(train[j], last);
    }
    train
}

// All three, where the first trains have gone with these orders at these departures.
pub fn behind(
    sheet: AdmittedSheet,
    gone: usize,
    train: [u8; MOST_ORDERS],
    departure: [u32; MOST_TRAINS],
    minute: u32,
) -> Outset
    requires { gone ≤ train_counts.most }
    ensures { Behind sheet.columns gone train departure minute result }
{
    let n = sheet.columns.order_count;
    let last = sheet.columns.train_count as u8;
    let own = sheet.columns.capacity;
    let capacity = places_behind(n, gone, own, &train);
    let latest = latest_behind(n, last, train);
    let since = since_behind(gone, departure, minute);
    Outset {
        capacity,
        latest,
        since,
    }
}

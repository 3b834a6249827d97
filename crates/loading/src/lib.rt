// Step 1 of a round: loading. It begins from the trains of the round before, which must be orderly for the latest trains of this one: orders that are too
// late lose their trains, and then each train, from the last down, takes in the greatest order that could come while there is room or that order beats the
// least on the train. `BeginLaws` shows that this is the loading of document 01, whatever trains it began from.
#![tactic(auto)]

ghost use Rattle.std.specs.Prelude.{◌≡◌, ◌-◌, ◌%◌, ◌≤◌, take};
ghost use Rattle.numbers.specs.Counting.{at, nth};
ghost use Rattle.model.specs.Limits.{train_counts, capacity_range};
ghost use Rattle.loading.specs.ToLoad.{loading_of, ToLoad};
ghost use Rattle.riders.specs.Standing.{place};
ghost use Rattle.loading.specs.Turns.{Turn, needed};
ghost use Rattle.riders.specs.Riders.{Counted, Riding};
ghost use Rattle.loading.specs.Stage.{Stage, Unmoved, Waiting};

use columns::of_train;
use model::limits::{MOST_ORDERS, MOST_TRAINS};
use riders::moving::{TRAINS_AND_NONE, last_waited_for, leave_late, move_order};
use riders::standing::{Riders, greatest_outside, least_on, survey};

// The place of the order with this standing.
fn place_of(standing: u32) -> usize
    requires { 1 ≤ standing % 256 }
    ensures { result ≡ place standing }
{
    (standing % 256 - 1) as usize
}

// One turn of train i: the greatest order that could come comes in; where there is no room it must beat the least on the train, who then rides none.
// Whether one came in.
fn take_turn(
    n: usize,
    i: u8,
    places: u8,
    release: &[u32; MOST_ORDERS],
    latest: &[u8; MOST_ORDERS],
    train: &mut [u8; MOST_ORDERS],
    riders: &mut [u8; TRAINS_AND_NONE],
) -> bool
    requires { Riding n release.now train.old riders.old × (1 ≤ i) × (i ≤ train_counts.most) }
    ensures turns { Turn n (at release.now) latest.now i places train.old train.new result }
    ensures counts { Counted n train.new riders.new }
{
    let best = greatest_outside(n, i, release, latest, train);
    if riders[i as usize] < places {
        if best == 0 {
            return false;
        }
        move_order(n, place_of(best), i, train, riders);
        return true;
    }
    let least = least_on(n, i, release, train);
    if best <= least {
        return false;
    }
    move_order(n, place_of(least), 0, train, riders);
    move_order(n, place_of(best), i, train, riders);
    true
}

// The turns of train i, until nothing moves, or it is full and nobody without a train may ride it: `top` is the last train that one of these may ride.
fn settle_train(
    n: usize,
    i: u8,
    top: u8,
    capacity: &[u32; MOST_TRAINS],
    release: &[u32; MOST_ORDERS],
    latest: &[u8; MOST_ORDERS],
    train: &mut [u8; MOST_ORDERS],
    riders: &mut [u8; TRAINS_AND_NONE],
)
    requires riding { Riding n release.now train.old riders.old × (1 ≤ i) × (i ≤ train_counts.most) × (nth capacity.now i ≤ capacity_range.most) }
    requires stage { Stage n (at release.now) (nth capacity.now) latest.now i train.old × Waiting n latest.now top train.old }
    ensures settles { Stage n (at release.now) (nth capacity.now) latest.now (i - 1) train.new }
    ensures keeps { Unmoved n i train.old train.new }
    ensures counts { Counted n train.new riders.new }
{
    let places = of_train(capacity, i) as u8;
    // a while: the turns end when nothing moves
    while (riders[i as usize] < places) | ((riders[0] > 0) & (i <= top)) {
        if !take_turn(n, i, places, release, latest, train, riders) {
            break;
        }
    }
}

// Whether train i needs a turn: it was full and has lost an order; or one without a train may ride it, and finds room or may beat one on it.
fn needs_turn(
    waiting: u8,
    riders: u8,
    places: u8,
    held: u8,
    low: u32,
    top: u8,
    challenger: u32,
    i: u8,
) -> bool
    ensures { result ≡ needed waiting riders places held low top challenger i }
{
    let short = riders < places;
    // `&` and `|`, without a branch: each train of each round is asked
    (short & (held == places)) | (((waiting > 0) & (i <= top)) & (short | (low < challenger)))
}

// The train of each of n orders, from the trains before.
pub fn load(
    n: usize,
    q: usize,
    release: &[u32; MOST_ORDERS],
    capacity: [u32; MOST_TRAINS],
    latest: &[u8; MOST_ORDERS],
    mut train: [u8; MOST_ORDERS],
) -> [u8; MOST_ORDERS]
    requires { ToLoad n q release.now capacity latest.now train }
    ensures { take n result ≡ loading_of n q (at release.now) capacity latest.now }
{
    let Riders { riders: held, low } = survey(n, release, &train);
    let mut riders = held;
    leave_late(n, latest, &mut train, &mut riders);
    let mut top = last_waited_for(n, latest, &train);
    let mut challenger = greatest_outside(n, 1, release, latest, &train);
    for i in (1..=q).rev() {
        let m = i as u8;
        let places = capacity[i - 1] as u8;
        let waiting = riders[0];
        let now = riders[i];
        if needs_turn(waiting, now, places, held[i], low[i], top, challenger, m) {
            settle_train(
                n,
                m,
                top,
                &capacity,
                release,
                latest,
                &mut train,
                &mut riders,
            );
            if riders[0] > 0 {
                top = last_waited_for(n, latest, &train);
                challenger = greatest_outside(n, 1, release, latest, &train);
            }
        }
    }
    train
}

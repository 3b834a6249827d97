// Step 2 of a round: the departures, arrivals and windows of the trains. Train i stands at place i - 1 of every list.
#![tactic(auto)]

ghost use Rattle.std.specs.Prelude.{◌≡◌, ◌≤◌, IfSome, take};
ghost use Rattle.numbers.specs.Counting.{at, nth, row};
ghost use Rattle.model.specs.Memory.{windows_of, sheet_of};
ghost use Rattle.model.specs.Arrival.{arrival as arrival_of, arrival_behind};
ghost use Rattle.model.specs.Limits.{last_instant, train_counts, order_counts, gap_range, running_range};
ghost use Rattle.rounds.specs.Timing.{awaited, departures as departures_of};
ghost use Rattle.rounds.specs.Rounds.{times as times_of};
ghost use Rattle.columns.specs.Columns.{UpTo, Loaded};
ghost use Rattle.timing.specs.Timed.{OnTrains, never, departed_in, timed_in, times_since};

use columns::{none_above, of_train};
use model::Form;
use model::admitted::AdmittedSheet;
use model::limits::{MOST_ORDERS, MOST_TRAINS};

// The departures of the trains in the window form, and the windows, from 1, in which they leave.
#[derive(Clone, Copy)]
struct Leaving {
    departure: [u32; MOST_TRAINS],
    window: [u8; MOST_TRAINS],
}

// The departures, arrivals and windows of the trains. A timetable's windows are 0.
#[derive(Clone, Copy)]
pub struct Times {
    pub departure: [u32; MOST_TRAINS],
    pub arrival: [u32; MOST_TRAINS],
    pub window: [u8; MOST_TRAINS],
}

// What each train awaits beside its gap and window: its own instant `since`, and the releases on it, of n orders.
fn releases(
    n: usize,
    release: [u32; MOST_ORDERS],
    train: [u8; MOST_ORDERS],
    since: [u32; MOST_TRAINS],
) -> [u32; MOST_TRAINS]
    requires { (n ≤ order_counts.most) × OnTrains n train }
    ensures { result ≡ row (awaited (nth since) (at release) (take n train) n) train_counts.most }
{
    let mut released = since;
    for j in 0..n {
        let m = usize::from(train[j] - 1);
        released[m] = release[j].max(released[m]);
    }
    released
}

// Each train's departure in the window form: the least instant in a window that it may leave at, with that window; none if one of them finds no window.
// Train i + 1 awaits instant t. A window that is over for one train is over for those behind it, so each turn passes a window or lets a train leave.
fn find_departures(sheet: AdmittedSheet, released: [u32; MOST_TRAINS]) -> Option<Leaving>
    requires { sheet.columns.form ≡ Form.Windows }
    ensures is { departed_in sheet.columns.train_count result ≡ departures_of (windows_of sheet.columns) (nth released) sheet.columns.train_count }
    ensures in_time { IfSome result (λ r. UpTo last_instant sheet.columns.train_count r.departure) }
{
    let from = sheet.columns.window_from;
    let to = sheet.columns.window_to;
    let mut departure = [0u32; MOST_TRAINS];
    let mut window = [0u8; MOST_TRAINS];
    let mut t: u32 = 0;
    let mut i: usize = 0;
    let mut m: usize = 0;
    // a while over two places, of which each turn moves one
    while (i < sheet.columns.train_count) & (m < sheet.columns.window_count) {
        t = t.max(released[i]);
        if to[m] < t {
            m += 1;
            continue;
        }
        t = t.max(from[m]);
        departure[i] = t;
        window[i] = (m + 1) as u8;
        t += sheet.columns.gap;
        i += 1;
    }
    (i == sheet.columns.train_count).then_some(Leaving { departure, window })
}

// The arrivals of trains 1 to i, each found from the arrival of the train ahead, back to the first train.
// A recursion and no loop: the scope of the project names this form for the arrivals (docs/DECISIONS.md, "Named forms").
fn arrivals_to(
    gap: u32,
    running: &[u32; MOST_TRAINS],
    departure: &[u32; MOST_TRAINS],
    i: u8,
) -> [u32; MOST_TRAINS]
    requires le_i { (1 ≤ i) × (i ≤ train_counts.most) × (gap ≤ gap_range.most) }
    requires up_to { UpTo running_range.most i running.now × UpTo never i departure.now }
    ensures { take i result ≡ row (arrival_behind gap (nth running.now) (nth departure.now)) i }
{
    let own = of_train(departure, i) + of_train(running, i);
    if i == 1 {
        [own; MOST_TRAINS]
    } else {
        let mut arrival = arrivals_to(gap, running, departure, i - 1);
        let j = (i - 1) as usize;
        arrival[j] = (arrival[j - 1] + gap).max(own);
        arrival
    }
}

// The arrivals that follow from the departures in the window form.
fn find_arrivals(sheet: AdmittedSheet, departure: [u32; MOST_TRAINS]) -> [u32; MOST_TRAINS]
    requires { (sheet.columns.form ≡ Form.Windows) × UpTo never sheet.columns.train_count departure }
    ensures { take sheet.columns.train_count result
        ≡ row (arrival_behind sheet.columns.gap (nth sheet.columns.running) (nth departure)) sheet.columns.train_count }
{
    let running = sheet.columns.running;
    arrivals_to(
        sheet.columns.gap,
        &running,
        &departure,
        sheet.columns.train_count as u8,
    )
}

// The arrivals that follow from these departures, by the sheet's form.
pub fn arrive(sheet: AdmittedSheet, departure: [u32; MOST_TRAINS]) -> [u32; MOST_TRAINS]
    requires { UpTo last_instant sheet.columns.train_count departure }
    ensures { take sheet.columns.train_count result ≡ row (arrival_of (sheet_of sheet.columns).paths (nth departure)) sheet.columns.train_count }
{
    match sheet.columns.form {
        Form::Windows => find_arrivals(sheet, departure),
        Form::Timetable => sheet.columns.arrival,
    }
}

// The times of the trains that carry these orders, by the sheet's form; none where step 2 stops the round.
pub fn time_trains(sheet: AdmittedSheet, train: [u8; MOST_ORDERS]) -> Option<Times>
    requires { Loaded (sheet_of sheet.columns) train }
    ensures { timed_in sheet.columns.train_count result ≡ times_of (sheet_of sheet.columns) (take sheet.columns.order_count train) }
{
    time_trains_since(sheet, train, [0; MOST_TRAINS])
}

// The times of the trains that carry these orders and leave no earlier than `since`, by the sheet's form; none where step 2 stops the round.
pub fn time_trains_since(
    sheet: AdmittedSheet,
    train: [u8; MOST_ORDERS],
    since: [u32; MOST_TRAINS],
) -> Option<Times>
    requires { Loaded (sheet_of sheet.columns) train }
    ensures { timed_in sheet.columns.train_count result ≡ times_since (sheet_of sheet.columns) (nth since) (take sheet.columns.order_count train) }
{
    let released = releases(
        sheet.columns.order_count,
        sheet.columns.release,
        train,
        since,
    );
    match sheet.columns.form {
        Form::Windows => {
            let Leaving { departure, window } = find_departures(sheet, released)?;
            let arrival = find_arrivals(sheet, departure);
            Some(Times {
                departure,
                arrival,
                window,
            })
        }
        Form::Timetable => {
            let departure = sheet.columns.departure;
            let arrival = sheet.columns.arrival;
            let window = [0u8; MOST_TRAINS];
            none_above(sheet.columns.train_count, released, departure).then_some(Times {
                departure,
                arrival,
                window,
            })
        }
    }
}

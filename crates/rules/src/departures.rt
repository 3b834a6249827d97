// The departures that a sheet allows: in windows and a gap apart, or those of its timetable.
ghost use Rattle.std.specs.Prelude.{◌≡◌, ◌&&◌, ◌≤◌, ◌+◌, ◌-◌, suc, leb, eqb};
ghost use Rattle.numbers.specs.Counting.{nth, each, any};
ghost use Rattle.model.specs.Memory.{sheet_of};
ghost use Rattle.model.specs.Limits.{train_counts, window_counts};
ghost use Rattle.model.specs.ScheduleTest.{allowed};

use model::Form;
use model::admitted::AdmittedSheet;
use model::limits::{MOST_TRAINS, MOST_WINDOWS};

// Whether instant t lies in one of v windows, both ends included.
fn is_open(from: &[u32; MOST_WINDOWS], to: &[u32; MOST_WINDOWS], v: usize, t: u32) -> bool
    requires { v ≤ window_counts.most }
    ensures { result ≡ any (λ m. leb (nth from.now m) t && leb t (nth to.now m)) v }
{
    let mut open = false;
    for m in 0..v {
        open = ((from[m] <= t) & (t <= to[m])) | open;
    }
    open
}

// Whether each of q departures lies in one of v windows.
fn are_open(
    from: [u32; MOST_WINDOWS],
    to: [u32; MOST_WINDOWS],
    v: usize,
    q: usize,
    departure: [u32; MOST_TRAINS],
) -> bool
    requires { (v ≤ window_counts.most) × (q ≤ train_counts.most) }
    ensures { result ≡ each (λ i. any (λ m. leb (nth from m) (nth departure i) && leb (nth departure i) (nth to m)) v) q }
{
    let mut open = true;
    for &t in &departure[..q] {
        open = is_open(&from, &to, v, t) & open;
    }
    open
}

// Whether each of q trains but the first leaves no earlier than a gap behind the train ahead. Any two numbers of 32 bits do not wrap 64.
fn are_spaced(gap: u32, q: usize, departure: [u32; MOST_TRAINS]) -> bool
    requires { q ≤ train_counts.most }
    ensures { result ≡ each (λ i. leb (nth departure i + gap) (nth departure (suc i))) (q - 1) }
{
    let mut spaced = true;
    for i in 1..q {
        spaced = (u64::from(departure[i - 1]) + u64::from(gap) <= u64::from(departure[i])) & spaced;
    }
    spaced
}

// Whether each of q departures is the fixed one.
fn are_fixed(q: usize, fixed: [u32; MOST_TRAINS], departure: [u32; MOST_TRAINS]) -> bool
    requires { q ≤ train_counts.most }
    ensures { result ≡ each (λ i. eqb (nth departure i) (nth fixed i)) q }
{
    departure[..q] == fixed[..q]
}

// Whether the departures are allowed, by the sheet's form.
pub fn are_allowed(sheet: AdmittedSheet, departure: [u32; MOST_TRAINS]) -> bool
    ensures { result ≡ allowed (sheet_of sheet.columns).paths sheet.columns.train_count (nth departure) }
{
    first_are_allowed(sheet, sheet.columns.train_count, departure)
}

// Whether the departures of the first q trains are.
pub fn first_are_allowed(sheet: AdmittedSheet, q: usize, departure: [u32; MOST_TRAINS]) -> bool
    requires { q ≤ train_counts.most }
    ensures { result ≡ allowed (sheet_of sheet.columns).paths q (nth departure) }
{
    match sheet.columns.form {
        Form::Windows => {
            let from = sheet.columns.window_from;
            let to = sheet.columns.window_to;
            let open = are_open(from, to, sheet.columns.window_count, q, departure);
            open & are_spaced(sheet.columns.gap, q, departure)
        }
        Form::Timetable => are_fixed(q, sheet.columns.departure, departure),
    }
}

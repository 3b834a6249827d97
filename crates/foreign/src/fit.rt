// Whether the gathered rows fit a sheet, with a row for each order, as test 12 asks, or for some, as test 21; and the departures as a column.
ghost use Rattle.std.specs.Prelude.{◌≡◌, ◌≤◌, length, take};
ghost use Rattle.model.specs.Limits.{◌–◌, train_counts};
ghost use Rattle.foreign.specs.Gathered.{place_in, column_in, column_fits, column_within};

use crate::Given;
use model::limits::MOST_TRAINS;

// Whether an order that is on the sheet has a train from `least` to q, and one that is not has none, 0.
fn fits_at(train: u8, on_sheet: bool, least: u8, q: usize) -> bool
    requires { q ≤ train_counts.most }
    ensures { result ≡ place_in (least – q) on_sheet train }
{
    if on_sheet {
        (least <= train) & (train <= (q as u8))
    } else {
        train == 0
    }
}

// Whether sound rows give each of n orders a train from `least` to q, and no other order any.
fn fits_from(given: Given, n: usize, least: u8, q: usize) -> bool
    requires { q ≤ train_counts.most }
    ensures { result ≡ column_in n (least – q) given }
{
    let mut fit = given.sound;
    for (j, &train) in given.train.iter().enumerate() {
        fit = fits_at(train, j < n, least, q) & fit;
    }
    fit
}

// Whether sound rows name each order from 1 to n and no other, and only trains 1 to q.
pub fn fits(given: Given, n: usize, q: usize) -> bool
    requires { q ≤ train_counts.most }
    ensures { result ≡ column_fits n q given }
{
    fits_from(given, n, 1, q)
}

// Whether sound rows name only orders 1 to n and trains 1 to q. They may leave orders out.
pub fn within(given: Given, n: usize, q: usize) -> bool
    requires { q ≤ train_counts.most }
    ensures { result ≡ column_within n q given }
{
    fits_from(given, n, 0, q)
}

// The departures as a column.
pub fn column_of(departures: &[u32]) -> [u32; MOST_TRAINS]
    requires { length departures.now ≤ train_counts.most }
    ensures { take (length departures.now) result ≡ departures.now }
{
    let mut column = [0u32; MOST_TRAINS];
    column[..departures.len()].copy_from_slice(departures);
    column
}

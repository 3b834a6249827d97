// A foreign plan in columns: the train of each order, gathered from rows in whatever order they stand, and the departure of each train.
#![tactic(auto)]

pub mod fit;

ghost use Rattle.std.specs.Prelude.{◌≡◌, length};
ghost use Rattle.foreign.specs.Gathered.{no_rows, row_added, gathered};

use model::Row;
use model::limits::{MOST_ORDERS, MOST_TRAINS, in_range};

// What some rows say: the train of each order, by place, 0 for one that they do not name. They are sound if they name no order twice, and no order or train
// that no sheet has. No Option of the column: the tests of the column fold `sound` with the others in one pass, and what comes after them reads it unasked.
#[derive(Clone, Copy)]
pub struct Given {
    pub train: [u8; MOST_ORDERS],
    pub sound: bool,
}

// Before the first row.
pub fn before_rows() -> Given
    ensures { result ≡ no_rows }
{
    Given {
        train: [0; MOST_ORDERS],
        sound: true,
    }
}

// One more row, put into the column where it stands.
fn add_row(given: &mut Given, order: u32, train: u32)
    ensures { given.new ≡ row_added given.old order train }
{
    let known = in_range(1, MOST_ORDERS as u32, order) & in_range(1, MOST_TRAINS as u32, train);
    if known && given.train[(order - 1) as usize] == 0 {
        given.train[(order - 1) as usize] = train as u8;
    } else {
        given.sound = false;
    }
}

// One more row.
pub fn with_row(mut given: Given, order: u32, train: u32) -> Given
    ensures { result ≡ row_added given order train }
{
    add_row(&mut given, order, train);
    given
}

// All rows of a lent list of records.
pub fn gather(rows: &[Row]) -> Given
    ensures { result ≡ gathered rows.now (length rows.now) }
{
    let mut given = before_rows();
    for row in rows {
        add_row(&mut given, row.order, row.train);
    }
    given
}

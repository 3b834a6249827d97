// The lines of each kind that a sheet has many of, gathered in columns: their tests after those above them, and one more of them.
#![tactic(auto)]

pub mod faults;
pub mod order_lines;
pub mod train_lines;
pub mod window_lines;

use model::limits::{MOST_ORDERS, MOST_TRAINS, MOST_WINDOWS};

// The tests of a line after those above it, each true where it passes: 3, 4, 2 and 6 of document 01's table. Four answers, and no
// flag beside a value: `first_fault` goes through them in the table's order.
#[derive(Clone, Copy)]
pub struct LineTests {
    pub late_enough: bool,
    pub few: bool,
    pub in_range: bool,
    pub in_order: bool,
}

// The W lines so far, in columns.
#[derive(Clone, Copy)]
pub struct WindowRows {
    pub count: usize,
    pub from: [u32; MOST_WINDOWS],
    pub to: [u32; MOST_WINDOWS],
}

// The T lines so far, or the X lines; the columns of the other kind are noughts.
#[derive(Clone, Copy)]
pub struct TrainRows {
    pub count: usize,
    pub capacity: [u32; MOST_TRAINS],
    pub running: [u32; MOST_TRAINS],
    pub departure: [u32; MOST_TRAINS],
    pub arrival: [u32; MOST_TRAINS],
}

// The O lines so far; each order's name by its place in the text.
#[derive(Clone, Copy)]
pub struct OrderRows {
    pub count: usize,
    pub release: [u32; MOST_ORDERS],
    pub due: [u32; MOST_ORDERS],
    pub weight: [u32; MOST_ORDERS],
    pub name_start: [usize; MOST_ORDERS],
    pub name_length: [usize; MOST_ORDERS],
}

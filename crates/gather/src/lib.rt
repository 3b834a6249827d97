// The lines of a text so far: the tests of a line after those above it and of the text after its last line, and one line more.
#![tactic(auto)]

mod end_tests;
mod line_tests;
mod more_lines;

use rows::{OrderRows, TrainRows, WindowRows};

// The kinds of lines, in the order in which they come: a T line and an X line are of one kind.
#[derive(Clone, Copy, PartialEq, Eq, PartialOrd, Ord)]
pub enum Kind {
    Gap,
    Window,
    Train,
    Order,
}

// The lines of a sheet so far. `above` is the kind of the line above.
#[derive(Clone, Copy)]
pub struct SheetLines {
    pub above: Option<Kind>,
    pub gap: Option<u32>,
    pub windows: WindowRows,
    pub trains: TrainRows,
    pub orders: OrderRows,
}

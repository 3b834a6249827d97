// Fields of a text: a number or a name behind a comma, at a position of the text, and names by their places in it.
#![tactic(auto)]

pub mod bytes;
pub mod name;
pub mod number;

use model::limits::MOST_ORDERS;

// The bytes that a field is made of.
#[derive(Clone, Copy)]
pub enum Alphabet {
    Digits,
    NameBytes,
}

// A number that was read, and the position after it.
#[derive(Clone, Copy)]
pub struct NumberAt {
    pub value: u32,
    pub next: usize,
}

// Where a name starts in the text, and how many bytes it has.
#[repr(C)]
#[derive(Clone, Copy, Default)]
pub struct NamePlace {
    pub start: usize,
    pub length: usize,
}

// Where the names of a text's orders start, and how many bytes they have: the first `count` elements of each column.
#[derive(Clone, Copy)]
pub struct NamePlaces {
    pub count: usize,
    pub start: [usize; MOST_ORDERS],
    pub length: [usize; MOST_ORDERS],
}

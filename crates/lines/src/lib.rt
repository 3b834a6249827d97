// Lines of a sheet's text: a line at a position, field by field, as the record of its kind. `line` is its number.
#![tactic(auto)]

mod kinds;

ghost use Rattle.std.specs.Prelude.{◌≡◌, ◌<◌, length};
ghost use Rattle.lines.specs.Lines.{line_at};

use fields::NamePlace;
use fields::name::name_field;
use kinds::number_fields;
use model::Refusal;

// The record of a line `G,gap`.
#[derive(Clone, Copy)]
pub struct Gap {
    pub gap: u32,
}

// The record of a line `W,from,to`.
#[derive(Clone, Copy)]
pub struct Window {
    pub from: u32,
    pub to: u32,
}

// The record of a line `T,capacity,running`.
#[derive(Clone, Copy)]
pub struct Train {
    pub capacity: u32,
    pub running: u32,
}

// The record of a line `X,capacity,departure,arrival`.
#[derive(Clone, Copy)]
pub struct FixedTrain {
    pub capacity: u32,
    pub departure: u32,
    pub arrival: u32,
}

// The record of a line `O,name,release,due,weight`: the name by its place in the text.
#[derive(Clone, Copy)]
pub struct Order {
    pub name_start: usize,
    pub name_length: usize,
    pub release: u32,
    pub due: u32,
    pub weight: u32,
}

#[derive(Clone, Copy)]
pub enum Line {
    Gap(Gap),
    Window(Window),
    Train(Train),
    FixedTrain(FixedTrain),
    Order(Order),
}

// A line that was read: its record and the position after it.
#[derive(Clone, Copy)]
pub struct LineAt {
    pub line: Line,
    pub next: usize,
}

// The line that starts at a position of the text, or refusal 1.
#[tactic(auto, using(std::proofs::lemmas::Bool::Decides::nat_tests, crate::proofs::LineLaws::name_found), unfolding(crate::specs::Lines::line_at))]
pub fn line_at(text: &[u8], p: usize, line: usize) -> Result<LineAt, Refusal>
    requires { p < length text.now }
    ensures { result ≡ line_at text.now p line }
{
    let letter = text[p];
    let name = if letter == b'O' {
        name_field(text, p + 1).ok_or(Refusal::Malformed(line))?
    } else {
        NamePlace {
            start: p + 1,
            length: 0,
        }
    };
    number_fields(text, line, letter, name)
}

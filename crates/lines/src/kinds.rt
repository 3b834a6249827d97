// The kinds of lines by their letters, and the fields that a line ends with.
ghost use Rattle.std.specs.Prelude.{◌≡◌, ◌+◌, ◌≤◌, length};
ghost use Rattle.lines.specs.Lines.{number_count, record_of, number_fields};

use crate::{FixedTrain, Gap, Line, LineAt, Order, Train, Window};
use fields::NamePlace;
use fields::bytes::byte_at;
use fields::number::number_field;
use model::Refusal;

// How many numbers a line with this letter has; none if no kind of line has it.
#[tactic(auto, using(std::proofs::lemmas::Bool::Decides::nat_tests), unfolding(crate::specs::Lines::number_count))]
fn number_count(letter: u8) -> Option<usize>
    ensures { result ≡ number_count letter }
{
    match letter {
        b'G' => Some(1),
        b'W' | b'T' => Some(2),
        b'X' | b'O' => Some(3),
        _ => None,
    }
}

// The record of a line with this letter: its numbers in their order, and of an order its name by its place.
#[tactic(auto, using(std::proofs::lemmas::Bool::Decides::nat_tests), unfolding(crate::specs::Lines::record_of))]
fn record_of(letter: u8, name: NamePlace, values: [u32; 3]) -> Line
    ensures { result ≡ record_of letter name.start name.length values }
{
    let [first, second, third] = values;
    match letter {
        b'G' => Line::Gap(Gap { gap: first }),
        b'W' => Line::Window(Window {
            from: first,
            to: second,
        }),
        b'T' => Line::Train(Train {
            capacity: first,
            running: second,
        }),
        b'X' => Line::FixedTrain(FixedTrain {
            capacity: first,
            departure: second,
            arrival: third,
        }),
        _ => Line::Order(Order {
            name_start: name.start,
            name_length: name.length,
            release: first,
            due: second,
            weight: third,
        }),
    }
}

// The line with this letter whose number fields stand behind this name; only an order's name has bytes.
#[tactic(auto, using(crate::proofs::LineLaws::count_laws), unfolding(crate::specs::Lines::number_fields, crate::specs::Lines::numbers_from))]
pub fn number_fields(
    text: &[u8],
    line: usize,
    letter: u8,
    name: NamePlace,
) -> Result<LineAt, Refusal>
    requires { name.start + name.length ≤ length text.now }
    ensures { result ≡ number_fields text.now line letter name.start name.length }
{
    let malformed = Refusal::Malformed(line);
    let count = number_count(letter).ok_or(malformed)?;
    let mut values = [0; 3];
    let mut end = name.start + name.length;
    for value in &mut values[..count] {
        // A let else and no `?`: the scope of the project names this form for a field that is no number (docs/DECISIONS.md, "Named forms").
        let Some(field) = number_field(text, end) else {
            return Err(malformed);
        };
        *value = field.value;
        end = field.next;
    }
    if byte_at(text, end) != b'\n' {
        return Err(malformed);
    }
    Ok(LineAt {
        line: record_of(letter, name, values),
        next: end + 1,
    })
}

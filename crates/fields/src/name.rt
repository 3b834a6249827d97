// Name fields, and an order's name by where all names of a text stand.
ghost use Rattle.std.specs.Prelude.{◌≡◌};
ghost use Rattle.fields.specs.Names.{name_field};
ghost use Rattle.fields.specs.NamePlaces.{IsPart, name_at, place_of, within};

use crate::bytes::{byte_at, run};
use crate::{Alphabet, NamePlace, NamePlaces};
use model::limits::MOST_ORDERS;

// A comma and then a name.
#[tactic(auto, using(std::proofs::lemmas::Bool::Decides::nat_tests), unfolding(crate::specs::Names::name_field))]
pub fn name_field(text: &[u8], p: usize) -> Option<NamePlace>
    ensures { result ≡ name_field text.now p }
{
    if byte_at(text, p) != b',' {
        return None;
    }
    let start = p + 1;
    let length = run(text, start, Alphabet::NameBytes);
    match length {
        1..=12 => Some(NamePlace { start, length }),
        _ => None,
    }
}

// Where an order's name stands in the text; no bytes at its start if there is no such order.
#[tactic(auto, using(std::proofs::lemmas::Bool::Decides::nat_tests), unfolding(crate::specs::NamePlaces::name_at))]
pub fn name_place(names: NamePlaces, order: usize) -> NamePlace
    ensures { result ≡ place_of (name_at names order) }
{
    if order < 1 || names.count < order || MOST_ORDERS < order {
        return NamePlace::default();
    }
    let place = order - 1;
    NamePlace {
        start: names.start[place],
        length: names.length[place],
    }
}

// The part of the text that is an order's name; the empty part if there is no such order, or if the places are another text's and lie outside this one.
#[tactic(auto, using(std::proofs::lemmas::Bool::Decides::nat_tests), unfolding(crate::specs::NamePlaces::within))]
pub fn name_part(text: &[u8], names: NamePlaces, order: usize) -> &[u8]
    ensures { IsPart text.entry result (within text.now (name_at names order)) }
{
    let NamePlace { start, length } = name_place(names, order);
    if text.len() < start || text.len() - start < length {
        return &text[..0];
    }
    &text[start..start + length]
}

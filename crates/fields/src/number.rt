// Number fields.
ghost use Rattle.std.specs.Prelude.{◌≡◌, ◌≤◌, drop};
ghost use Rattle.fields.specs.Fields.{run_of};
ghost use Rattle.fields.specs.Numbers.{decimal_of, number_at, number_field};

use crate::bytes::{byte_at, run};
use crate::{Alphabet, NumberAt};

// The number that some digits from a position on make.
#[tactic(auto, using(crate::proofs::FieldLaws::digit_laws), unfolding(crate::specs::Numbers::decimal_of))]
fn decimal(text: &[u8], from: usize, digits: usize) -> u32
    requires { (digits ≤ 6) × (digits ≤ run_of Alphabet.Digits (drop from text.now)) }
    ensures { result ≡ decimal_of text.now from digits }
{
    let mut value: u32 = 0;
    for n in 0..digits {
        value = value * 10 + u32::from(text[from + n] - b'0');
    }
    value
}

#[tactic(auto, using(std::proofs::lemmas::Bool::Decides::nat_tests, crate::proofs::FieldLaws::run_inside), unfolding(crate::specs::Numbers::number_at))]
fn number_at(text: &[u8], p: usize) -> Option<NumberAt>
    ensures { result ≡ number_at text.now p }
{
    let digits = run(text, p, Alphabet::Digits);
    if digits < 1 || 6 < digits {
        return None;
    }
    if 1 < digits && byte_at(text, p) == b'0' {
        return None;
    }
    Some(NumberAt {
        value: decimal(text, p, digits),
        next: p + digits,
    })
}

// A comma and then a number.
#[tactic(auto, using(std::proofs::lemmas::Bool::Decides::nat_tests), unfolding(crate::specs::Numbers::number_field))]
pub fn number_field(text: &[u8], p: usize) -> Option<NumberAt>
    ensures { result ≡ number_field text.now p }
{
    if byte_at(text, p) != b',' {
        return None;
    }
    number_at(text, p + 1)
}

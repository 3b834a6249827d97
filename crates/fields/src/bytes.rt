// The bytes of a text: one, and runs of an alphabet.
ghost use Rattle.std.specs.Prelude.{◌≡◌, drop};
ghost use Rattle.numbers.specs.Counting.{at};
ghost use Rattle.fields.specs.Fields.{run_of, allowed_in};

use crate::Alphabet;

// The byte at a position; 0 past the end.
pub fn byte_at(text: &[u8], p: usize) -> u8
    ensures { result ≡ at text.now p }
{
    text.get(p).copied().unwrap_or(0)
}

fn allowed(alphabet: Alphabet, b: u8) -> bool
    ensures { result ≡ allowed_in alphabet b }
{
    match alphabet {
        Alphabet::Digits => b.is_ascii_digit(),
        Alphabet::NameBytes => matches!(b, b'0'..=b'9' | b'-' | b'A'..=b'Z'),
    }
}

// How many bytes from a position on are of an alphabet.
#[tactic(auto, unfolding(crate::specs::Fields::run_of))]
pub fn run(text: &[u8], from: usize, alphabet: Alphabet) -> usize
    ensures { result ≡ run_of alphabet (drop from text.now) }
{
    match text.get(from..) {
        Some(rest) => front_run(rest, alphabet),
        None => 0,
    }
}

// How many bytes at the front are of an alphabet.
#[tactic(auto, unfolding(crate::specs::Fields::run_of))]
fn front_run(bytes: &[u8], alphabet: Alphabet) -> usize
    ensures { result ≡ run_of alphabet bytes.now }
{
    bytes.iter().take_while(|b| allowed(alphabet, **b)).count()
}

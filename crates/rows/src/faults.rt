// The order of the tests, within a line and after the last one.
ghost use Rattle.std.specs.Prelude.{◌≡◌};
ghost use Rattle.rows.specs.Faults.{first_fault, last_fault};

use crate::LineTests;
use model::Refusal;

// The first fault of a line among 3, 4, 2 and 6.
#[tactic(auto, unfolding(crate::specs::Faults::first_fault))]
pub fn first_fault(line: usize, tests: LineTests) -> Result<(), Refusal>
    ensures { result ≡ first_fault line tests }
{
    if !tests.late_enough {
        return Err(Refusal::KindTooEarly(line));
    }
    if !tests.few {
        return Err(Refusal::TooMany(line));
    }
    if !tests.in_range {
        return Err(Refusal::OutOfRange(line));
    }
    if !tests.in_order {
        return Err(Refusal::OutOfOrder(line));
    }
    Ok(())
}

// The first fault of a text after its last line, of 5 and 7.
#[tactic(auto, unfolding(crate::specs::Faults::last_fault))]
pub fn last_fault(complete: bool, roomy: bool) -> Result<(), Refusal>
    ensures { result ≡ last_fault complete roomy }
{
    if !complete {
        return Err(Refusal::KindMissing);
    }
    if !roomy {
        return Err(Refusal::TooFewPlaces);
    }
    Ok(())
}

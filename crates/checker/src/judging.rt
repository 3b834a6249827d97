// Tests 12 and 13 of a foreign plan, before any round is made.
ghost use Rattle.std.specs.Prelude.{◌≡◌};
ghost use Rattle.model.specs.Memory.{sheet_of};
ghost use Rattle.foreign.specs.Gathered.{OfRows};
ghost use Rattle.checker.specs.Judging.{judged_so};

use foreign::Given;
use foreign::fit::{column_of, fits};
use model::admitted::AdmittedSheet;
use model::{PlanPair, Refusal};
use rules::is_schedule;
use rules::pair::pair_of;

// Judges a plan of an admitted sheet: its pair, or the refusal of the first test that fails.
pub fn judge(sheet: AdmittedSheet, departures: &[u32], given: Given) -> Result<PlanPair, Refusal>
    ensures { OfRows given (λ rows. result ≡ judged_so (sheet_of sheet.columns) departures.now rows) }
{
    let n = sheet.columns.order_count;
    let q = sheet.columns.train_count;
    let fit = (departures.len() == q) & fits(given, n, q);
    if !fit {
        return Err(Refusal::WrongRows);
    }
    let train = given.train;
    let departure = column_of(departures);
    if !is_schedule(sheet, train, departure) {
        return Err(Refusal::RuleBroken);
    }
    Ok(pair_of(sheet, train, departure))
}

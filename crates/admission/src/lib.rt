// Admission: whether a sheet in memory passes the tests 4, 5, 2, 6 and 7, in that order, or the refusal of the first that fails.
#![tactic(auto)]

mod columns;
mod tests;

ghost use Rattle.std.specs.Prelude.{◌≡◌, IfOk};
ghost use Rattle.model.specs.Memory.{sheet_of};
ghost use Rattle.model.specs.Admission.{admission};
ghost use Rattle.model.specs.Refusal.{of_reply};
ghost use Rattle.admission.specs.FirstRefusal.{first_refusal};

use model::admitted::AdmittedSheet;
use model::{Refusal, Sheet};

// The answer to a sheet that passes test 4: the first of the tests 5, 2, 6 and 7 that fails decides.
fn first_refusal(complete: bool, in_range: bool, in_order: bool, roomy: bool) -> Result<(), Refusal>
    ensures { result ≡ first_refusal complete in_range in_order roomy }
{
    if !complete {
        return Err(Refusal::KindMissing);
    }
    if !in_range {
        return Err(Refusal::OutOfRange(0));
    }
    if !in_order {
        return Err(Refusal::OutOfOrder(0));
    }
    if !roomy {
        return Err(Refusal::TooFewPlaces);
    }
    Ok(())
}

// "A planning call tests its sheet itself: 4, 5, 2, 6, 7 ..", with 0 returned; 10 is tested by the planning call. Columns are short, so every test after
// test 4 is made.
pub fn test_sheet(sheet: &Sheet) -> Result<(), Refusal>
    ensures { result ≡ admission (sheet_of sheet.now) }
{
    if !tests::few(sheet) {
        return Err(Refusal::TooMany(0));
    }
    let complete = tests::complete(sheet);
    let in_range = tests::in_range(sheet);
    let in_order = tests::in_order(sheet);
    let roomy = tests::roomy(sheet);
    first_refusal(complete, in_range, in_order, roomy)
}

// A sheet that passes these tests, with the fact that it does. Inlined, since it hands on a whole sheet.
#[inline(always)]
pub fn admit(sheet: Sheet) -> Result<AdmittedSheet, Refusal>
    ensures tests { of_reply result ≡ admission (sheet_of sheet) }
    ensures same { IfOk result (λ a. a.columns ≡ sheet) }
{
    test_sheet(&sheet)?;
    Ok(AdmittedSheet { columns: sheet })
}

// The tests before the rounds: 4, 5, 2, 6 and 7 of the sheet, then 10, whether the areas that the call fills have room. Inner: planning, checking and
// watching begin with it.
#![tactic(auto)]

ghost use Rattle.std.specs.Prelude.{◌≡◌, ◌&&◌, cond, ◌*◌, ◌≤◌, leb, IfOk};
ghost use Rattle.model.specs.Limits.{train_counts, numbers_a_train};
ghost use Rattle.model.specs.Memory.{sheet_of};
ghost use Rattle.model.specs.Refusal.{of_reply};
ghost use Rattle.model.specs.declared.Refusal.TheVariants as cause;
ghost use Rattle.rounds.specs.Areas.{list_room, plan_room, tested};
ghost use Rattle.rounds.specs.ByRound.{search_room};

use model::admitted::AdmittedSheet;
use model::limits::{NUMBERS_A_PAIR, NUMBERS_A_TRAIN};
use model::{Refusal, Sheet};

// Whether the pairs area has room for as many pairs as the sheet's figure.
fn holds_pairs(sheet: AdmittedSheet, pairs: usize) -> bool
    ensures { result ≡ list_room (sheet_of sheet.columns) pairs }
{
    NUMBERS_A_PAIR * bound::figure(sheet) <= pairs
}

// Whether the areas for trains and times have room for n orders and q trains.
fn holds_plan(n: usize, q: usize, trains: usize, times: usize) -> bool
    requires { q ≤ train_counts.most }
    ensures { result ≡ (leb n trains && leb (numbers_a_train * q) times) }
{
    (n <= trains) & (NUMBERS_A_TRAIN * q <= times)
}

// Test 10, where the areas have room or not.
fn with_room(room: bool) -> Result<(), Refusal>
    ensures { result ≡ cond room (Ok tt) (Err cause.AreaTooShort) }
{
    if room {
        Ok(())
    } else {
        Err(Refusal::AreaTooShort)
    }
}

// For listing and checking, which fill the pairs area. Inlined, as the other two are, since it hands on a whole sheet.
#[inline(always)]
pub fn for_listing(sheet: Sheet, pairs: usize) -> Result<AdmittedSheet, Refusal>
    ensures tests { of_reply result ≡ tested (sheet_of sheet) (list_room (sheet_of sheet) pairs) }
    ensures same { IfOk result (λ a. a.columns ≡ sheet) }
{
    let sheet = admission::admit(sheet)?;
    with_room(holds_pairs(sheet, pairs))?;
    Ok(sheet)
}

// For choosing, which fills the areas for trains and times.
#[inline(always)]
pub fn for_choosing(sheet: Sheet, trains: usize, times: usize) -> Result<AdmittedSheet, Refusal>
    ensures tests { of_reply result ≡ tested (sheet_of sheet) (plan_room (sheet_of sheet) trains times) }
    ensures same { IfOk result (λ a. a.columns ≡ sheet) }
{
    let sheet = admission::admit(sheet)?;
    let n = sheet.columns.order_count;
    let q = sheet.columns.train_count;
    with_room(holds_plan(n, q, trains, times))?;
    Ok(sheet)
}

// For a search by rounds, which fills all three: the tests of a lent sheet.
pub fn test_for_search(
    sheet: &Sheet,
    pairs: usize,
    trains: usize,
    times: usize,
) -> Result<(), Refusal>
    ensures { result ≡ tested (sheet_of sheet.now) (search_room (sheet_of sheet.now) pairs trains times) }
{
    admission::test_sheet(sheet)?;
    let sheet = AdmittedSheet { columns: *sheet };
    let n = sheet.columns.order_count;
    let q = sheet.columns.train_count;
    with_room(holds_pairs(sheet, pairs) & holds_plan(n, q, trains, times))
}

// The same, and the sheet with the fact that it is admitted.
#[inline(always)]
pub fn for_search(
    sheet: Sheet,
    pairs: usize,
    trains: usize,
    times: usize,
) -> Result<AdmittedSheet, Refusal>
    ensures tests { of_reply result ≡ tested (sheet_of sheet) (search_room (sheet_of sheet) pairs trains times) }
    ensures same { IfOk result (λ a. a.columns ≡ sheet) }
{
    test_for_search(&sheet, pairs, trains, times)?;
    Ok(AdmittedSheet { columns: sheet })
}

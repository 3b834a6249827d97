// The list's length known beforehand (document 02, No. 6): a figure that neither the rounds nor the pairs of any search of a sheet exceed. No round is made.
#![tactic(auto)]

ghost use Rattle.std.specs.Prelude.{◌≡◌};
ghost use Rattle.model.specs.Memory.{sheet_of};
ghost use Rattle.rounds.specs.RoundsBound.{rounds_bound};
ghost use Rattle.bound.specs.BoundCall.{BoundCall};

use borders::AnySheet;
use model::Refusal;
use model::admitted::AdmittedSheet;

// 1 and, for each train but the last, the places up to it, or the orders if these are fewer. Inner.
pub fn figure(sheet: AdmittedSheet) -> usize
    ensures { result ≡ rounds_bound (sheet_of sheet.columns) }
{
    let mut most: usize = 1;
    let mut places: usize = 0;
    for &own in &sheet.columns.capacity[..sheet.columns.train_count - 1] {
        places += own as usize;
        most += sheet.columns.order_count.min(places);
    }
    most
}

// The figure of a sheet that passes 4, 5, 2, 6 and 7, else that refusal.
pub fn bound<S: AnySheet>(sheet: S) -> Result<usize, Refusal>
    ensures { BoundCall (S.meant sheet) result }
{
    let sheet = admission::admit(sheet.to_sheet())?;
    Ok(figure(sheet))
}

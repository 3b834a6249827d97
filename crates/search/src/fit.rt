// Whether a round can be made from a progress that comes from outside.
ghost use Rattle.numbers.specs.DecidesLaws.{Decides};
ghost use Rattle.model.specs.Memory.{sheet_of};
ghost use Rattle.search.specs.Parts.{Begun};

use crate::Progress;
use lowering::is_crowded;
use model::admitted::AdmittedSheet;
use orderly::{are_orderly, none_above};

// Whether each order has a latest train of the sheet, they are not crowded, the trains are orderly, and fewer rounds were made than the sheet's figure.
pub fn fits(progress: Progress, sheet: AdmittedSheet) -> bool
    ensures { Decides (Begun (sheet_of sheet.columns) progress) result }
{
    let n = sheet.columns.order_count;
    let q = sheet.columns.train_count;
    let release = &sheet.columns.release;
    let capacity = &sheet.columns.capacity;
    let latest = &progress.latest;
    let train = &progress.train;
    none_above(n, latest, q)
        && are_orderly(n, q, release, capacity, latest, train)
        && !is_crowded(n, q, *capacity, *latest)
        && progress.rounds < bound::figure(sheet)
}

// The pair of a schedule.
ghost use Rattle.std.specs.Prelude.{◌≡◌, take};
ghost use Rattle.model.specs.Memory.{sheet_of};
ghost use Rattle.model.specs.Schedule.{Schedule};
ghost use Rattle.model.specs.Lateness.{pair_of};
ghost use Rattle.rules.specs.Rules.{pair_told};

use columns::last_of;
use lowering::lateness::worst_of;
use model::PlanPair;
use model::admitted::AdmittedSheet;
use model::limits::{MOST_ORDERS, MOST_TRAINS};

// The last arrival, by the model's rule, and the greatest weighted lateness of a schedule in columns.
pub fn pair_of(
    sheet: AdmittedSheet,
    train: [u8; MOST_ORDERS],
    departure: [u32; MOST_TRAINS],
) -> PlanPair
    requires { Schedule (sheet_of sheet.columns) (take sheet.columns.order_count train) (take sheet.columns.train_count departure) }
    ensures { pair_told result ≡ pair_of (sheet_of sheet.columns) (take sheet.columns.order_count train) (take sheet.columns.train_count departure) }
{
    let weight = sheet.columns.weight;
    let due = sheet.columns.due;
    let arrival = timing::arrive(sheet, departure);
    let worst = worst_of(sheet.columns.order_count, weight, due, train, arrival);
    let last = last_of(arrival, sheet.columns.train_count);
    PlanPair { last, worst }
}

// The start of a search.
ghost use Rattle.std.specs.Prelude.{◌≡◌};
ghost use Rattle.model.specs.Memory.{sheet_of};
ghost use Rattle.rounds.specs.Outset.{ordinary as from_sheet_alone};
ghost use Rattle.rounds.specs.Rounds.{start};
ghost use Rattle.search.specs.Setting.{outset_of};
ghost use Rattle.search.specs.Shows.{Shows, Starts};

use crate::{Outset, Progress};
use model::admitted::AdmittedSheet;
use model::limits::{FIRST_LIMIT, MOST_ORDERS, MOST_TRAINS};

// The sheet alone: its own places, every order may ride the last train, and no train waits for more than gap, window and releases.
pub fn ordinary(sheet: AdmittedSheet) -> Outset
    ensures { outset_of sheet.columns.order_count result ≡ from_sheet_alone (sheet_of sheet.columns) }
{
    let trains = sheet.columns.train_count as u8;
    let capacity = sheet.columns.capacity;
    Outset {
        capacity,
        latest: [trains; MOST_ORDERS],
        since: [0; MOST_TRAINS],
    }
}

// Before the first round there is no plan.
pub fn start_from(outset: Outset) -> Progress
    ensures { Starts outset result }
{
    let latest = outset.latest;
    Progress {
        latest,
        train: [0; MOST_ORDERS],
        recorded: None,
        limit: FIRST_LIMIT,
        last: 0,
        rounds: 0,
        ended: false,
    }
}

// Before the first round from the sheet alone.
pub fn start_search(sheet: AdmittedSheet) -> Progress
    ensures { Shows (sheet_of sheet.columns) result (start (sheet_of sheet.columns)) }
{
    start_from(ordinary(sheet))
}

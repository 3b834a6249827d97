// One round.
ghost use Rattle.std.specs.Prelude.{◌≡◌, false, ◌+◌};
ghost use Rattle.model.specs.Memory.{sheet_of};
ghost use Rattle.rounds.specs.SettingOut.{Sets};
ghost use Rattle.search.specs.Setting.{outset_of};
ghost use Rattle.search.specs.Shows.{MakesFrom, Makes};
ghost use Rattle.search.specs.Parts.{BegunFrom, Begun};

use crate::start::ordinary;
use crate::{Outset, Progress};
use lowering::{is_crowded, lateness, lower};
use model::admitted::AdmittedSheet;

// One round of a search that goes on: steps 1 and 2, which may stop it, then 3, and 4 and 5 at the limit. Places and instants are the outset's.
pub fn round_from(mut progress: Progress, sheet: AdmittedSheet, outset: Outset) -> Progress
    requires sets { Sets (sheet_of sheet.columns) (outset_of sheet.columns.order_count outset) }
    requires ended_value { (progress.ended ≡ false) × BegunFrom (sheet_of sheet.columns) (outset_of sheet.columns.order_count outset) progress }
    ensures is { MakesFrom (sheet_of sheet.columns) (outset_of sheet.columns.order_count outset) progress result }
    ensures counts { result.rounds ≡ progress.rounds + 1 }
{
    let n = sheet.columns.order_count;
    let q = sheet.columns.train_count;
    let capacity = outset.capacity;
    let latest = progress.latest;
    let release = &sheet.columns.release;
    let train = loading::load(n, q, release, capacity, &latest, progress.train);
    let times = timing::time_trains_since(sheet, train, outset.since);
    progress.recorded = None;
    progress.rounds += 1;
    progress.ended = true;
    if let Some(timed) = times {
        let weight = sheet.columns.weight;
        let due = sheet.columns.due;
        let arrival = timed.arrival;
        let worst = lateness::worst_of(n, weight, due, train, arrival);
        let last = columns::last_of(arrival, q);
        if worst < progress.limit {
            progress.recorded = Some(timed);
            progress.limit = worst;
            progress.last = last;
        }
        let lowered = lower(n, weight, due, arrival, progress.limit, latest);
        progress.ended = is_crowded(n, q, capacity, lowered);
        progress.latest = lowered;
        progress.train = train;
    }
    progress
}

// One round of a search from the sheet alone.
pub fn round(progress: Progress, sheet: AdmittedSheet) -> Progress
    requires ended_value { (progress.ended ≡ false) × Begun (sheet_of sheet.columns) progress }
    ensures is { Makes (sheet_of sheet.columns) progress result }
    ensures counts { result.rounds ≡ progress.rounds + 1 }
{
    round_from(progress, sheet, ordinary(sheet))
}

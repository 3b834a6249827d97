// Choosing: the plan of the last listed pair that is not later than a wished arrival. A sheet in memory goes in by value, and a call is lent the areas for
// trains and times.
#![tactic(auto)]

ghost use Rattle.std.specs.Prelude.{◌≡◌};
ghost use Rattle.model.specs.Memory.{sheet_of};
ghost use Rattle.rounds.specs.SettingOut.{Sets};
ghost use Rattle.rounds.specs.Answers.{choose_from as chosen_from};
ghost use Rattle.rounds.specs.Areas.{PlanRoom};
ghost use Rattle.rounds.specs.Told.{areas, ChoiceTold};
ghost use Rattle.search.specs.Setting.{outset_of};
ghost use Rattle.planner.specs.Outcome.{choice_so};
ghost use Rattle.planner.specs.Choosing.{ChoosingCall};

use borders::AnySheet;
use model::admitted::AdmittedSheet;
use model::{PlanPair, Refusal};
use recording::{put_times, put_trains};
use search::Outset;
use search::round::round_from;
use search::start::{ordinary, start_from};

// Chooses for a sheet: the train of each order, and the departure, the arrival and the window of each train, the window 0 in the timetable form.
pub fn choose<S: AnySheet>(
    sheet: S,
    wish: u32,
    train_of_order: &mut [u8],
    times: &mut [u32],
) -> Result<PlanPair, Refusal>
    ensures { ChoosingCall (S.meant sheet) wish result (areas train_of_order.new times.new)
        (areas train_of_order.old times.old) }
{
    let sheet = room::for_choosing(sheet.to_sheet(), train_of_order.len(), times.len())?;
    choose_from(sheet, ordinary(sheet), wish, train_of_order, times)
}

// Chooses for an admitted sheet from an outset, in areas that have room. No list is kept: each plan in time is written over the one before, and the first pair
// later than the wish ends the search, since arrivals never fall from round to round.
pub fn choose_from(
    sheet: AdmittedSheet,
    outset: Outset,
    wish: u32,
    train_of_order: &mut [u8],
    times: &mut [u32],
) -> Result<PlanPair, Refusal>
    requires room { PlanRoom (sheet_of sheet.columns) (areas train_of_order.old times.old) }
    requires sets { Sets (sheet_of sheet.columns) (outset_of sheet.columns.order_count outset) }
    ensures { ChoiceTold (sheet_of sheet.columns) (chosen_from (sheet_of sheet.columns) (outset_of sheet.columns.order_count outset) wish) result
        (areas train_of_order.new times.new) (areas train_of_order.old times.old) }
{
    let mut progress = start_from(outset);
    let mut choice = Err(Refusal::NoSchedule);
    // a while: how many rounds come is known as the search ends
    while !progress.ended & (progress.last <= wish) {
        progress = round_from(progress, sheet, outset);
        if let Some(timed) = progress.recorded {
            if progress.last <= wish {
                put_trains(progress.train, sheet.columns.order_count, train_of_order);
                put_times(
                    timed.departure,
                    timed.arrival,
                    timed.window,
                    sheet.columns.train_count,
                    times,
                );
                choice = Ok(PlanPair {
                    last: progress.last,
                    worst: progress.limit,
                });
            }
        }
    }
    told(choice, progress.last <= wish)
}

// What is told of the choice so far: 11 where nothing was chosen and the last pair is not in time.
fn told(choice: Result<PlanPair, Refusal>, in_time: bool) -> Result<PlanPair, Refusal>
    ensures { result ≡ choice_so choice in_time }
{
    if in_time {
        choice
    } else {
        choice.map_err(|_| Refusal::WishTooEarly)
    }
}

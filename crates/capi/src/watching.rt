// A search that is watched: started, moved by one round a call, and looked at between rounds.
ghost use Rattle.model.specs.Memory.{window_sheet, timetable_sheet};
ghost use Rattle.rounds.specs.ByRound.{all_areas};
ghost use Rattle.watch.specs.Calls.{LookCall};
ghost use Rattle.watched.specs.ExportedWatching.{ExportedStart, ExportedRound};

use model::{TimetableSheet, WindowSheet};
use watch::State;
use watched::{Round, Start};

// Starts a search on a sheet of the window form.
#[unsafe(no_mangle)]
pub extern "C" fn joshkamber_start_windows(
    sheet: WindowSheet,
    pairs: &[i64],
    train_of_order: &[u8],
    times: &[u32],
) -> Start
    ensures { ExportedStart (window_sheet sheet) (all_areas pairs.now train_of_order.now times.now) result }
{
    Start::from(watch::start::start(sheet, pairs, train_of_order, times))
}

// Starts a search on a sheet of the timetable form.
#[unsafe(no_mangle)]
pub extern "C" fn joshkamber_start_timetable(
    sheet: TimetableSheet,
    pairs: &[i64],
    train_of_order: &[u8],
    times: &[u32],
) -> Start
    ensures { ExportedStart (timetable_sheet sheet) (all_areas pairs.now train_of_order.now times.now) result }
{
    Start::from(watch::start::start(sheet, pairs, train_of_order, times))
}

// Moves a search on a sheet of the window form by one round.
#[unsafe(no_mangle)]
pub extern "C" fn joshkamber_round_windows(
    state: State,
    sheet: WindowSheet,
    pairs: &mut [i64],
    train_of_order: &mut [u8],
    times: &mut [u32],
) -> Round
    ensures { ExportedRound (window_sheet sheet) state result (all_areas pairs.new train_of_order.new times.new)
        (all_areas pairs.old train_of_order.old times.old) }
{
    let moved = watch::round::round(state, sheet, pairs, train_of_order, times);
    Round::from(moved)
}

// Moves a search on a sheet of the timetable form by one round.
#[unsafe(no_mangle)]
pub extern "C" fn joshkamber_round_timetable(
    state: State,
    sheet: TimetableSheet,
    pairs: &mut [i64],
    train_of_order: &mut [u8],
    times: &mut [u32],
) -> Round
    ensures { ExportedRound (timetable_sheet sheet) state result (all_areas pairs.new train_of_order.new times.new)
        (all_areas pairs.old train_of_order.old times.old) }
{
    let moved = watch::round::round(state, sheet, pairs, train_of_order, times);
    Round::from(moved)
}

// How many pairs at the front of the pairs area are recorded so far.
#[unsafe(no_mangle)]
pub extern "C" fn joshkamber_look(state: State, pairs: &[i64]) -> usize
    ensures { LookCall state pairs.now result }
{
    watch::look::look(state, pairs)
}

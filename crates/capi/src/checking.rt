// Checking a foreign plan. The rows of order and train are a lent list of records, laid out as in C.
ghost use Rattle.model.specs.Memory.{window_sheet, timetable_sheet};
ghost use Rattle.checked.specs.ExportedChecking.{ExportedCheck};

use checked::Check;
use model::{Row, TimetableSheet, WindowSheet};

// Checks a foreign plan against a sheet of the window form.
#[unsafe(no_mangle)]
pub extern "C" fn joshkamber_check_windows(
    sheet: WindowSheet,
    departures: &[u32],
    rows: &[Row],
    pairs: &mut [i64],
) -> Check
    ensures { ExportedCheck (window_sheet sheet) departures.now rows.now result pairs.new pairs.old }
{
    Check::from(checker::check(sheet, departures, rows, pairs))
}

// Checks a foreign plan against a sheet of the timetable form.
#[unsafe(no_mangle)]
pub extern "C" fn joshkamber_check_timetable(
    sheet: TimetableSheet,
    departures: &[u32],
    rows: &[Row],
    pairs: &mut [i64],
) -> Check
    ensures { ExportedCheck (timetable_sheet sheet) departures.now rows.now result pairs.new pairs.old }
{
    Check::from(checker::check(sheet, departures, rows, pairs))
}

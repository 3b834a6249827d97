// The list's length known beforehand.
ghost use Rattle.model.specs.Memory.{window_sheet, timetable_sheet};
ghost use Rattle.exported.specs.ExportedBound.{ExportedBound};

use exported::bounding::Bound;
use model::{TimetableSheet, WindowSheet};

// The figure of a sheet of the window form.
#[unsafe(no_mangle)]
pub extern "C" fn joshkamber_bound_windows(sheet: WindowSheet) -> Bound
    ensures { ExportedBound (window_sheet sheet) result }
{
    Bound::from(bound::bound(sheet))
}

// The figure of a sheet of the timetable form.
#[unsafe(no_mangle)]
pub extern "C" fn joshkamber_bound_timetable(sheet: TimetableSheet) -> Bound
    ensures { ExportedBound (timetable_sheet sheet) result }
{
    Bound::from(bound::bound(sheet))
}

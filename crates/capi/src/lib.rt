// The calls for C and Rust: for each form reading a text, the place of an order's name in it, listing the pairs of a sheet, choosing a plan, in `bounding` the
// list's length beforehand, in `checking` checking a plan, in `watching` a search by single calls, and in
// `replanning`, for the window form, listing and choosing behind trains that have gone. Not exported are a name as a part of the text, the tests
// of a sheet alone, and printing. The calls take and return numbers, slices (in C a pointer, then a length) and structs laid out as in C, those of `exported`
// among them, and ask nothing of their caller. Each form has calls of its own, since C tells calls by their names and structs by their types.
// include/joshkamber.h declares them.
#![tactic(auto)]

pub mod bounding;
pub mod checking;
pub mod replanning;
pub mod watching;

ghost use Rattle.std.specs.Prelude.{◌≡◌};
ghost use Rattle.model.specs.Memory.{window_sheet, timetable_sheet};
ghost use Rattle.fields.specs.NamePlaces.{place_of};
ghost use Rattle.sheet.specs.OrderNames.{name_in};
ghost use Rattle.model.specs.declared.Form.TheVariants.{Windows, Timetable};
ghost use Rattle.rounds.specs.Told.{areas};
ghost use Rattle.exported.specs.Exported.{windows_read, timetable_read, ExportedReading};
ghost use Rattle.exported.specs.ExportedPlanning.{ExportedListing, ExportedChoice};

use exported::reading::{TimetableRead, WindowsRead};
use exported::{Choice, Listing};
use fields::NamePlace;
use model::{Form, TimetableSheet, WindowSheet};

// Reads a text of the window form.
#[unsafe(no_mangle)]
pub extern "C" fn joshkamber_read_windows(text: &[u8]) -> WindowsRead
    ensures { ExportedReading text.now (windows_read text.now) result result.cause (window_sheet result.sheet) }
{
    WindowsRead::from(sheet::read_form(text))
}

// Reads a text of the timetable form.
#[unsafe(no_mangle)]
pub extern "C" fn joshkamber_read_timetable(text: &[u8]) -> TimetableRead
    ensures { ExportedReading text.now (timetable_read text.now) result result.cause (timetable_sheet result.sheet) }
{
    TimetableRead::from(sheet::read_form(text))
}

// Where the name of an order, numbered from 1, stands in a text of the window form.
#[unsafe(no_mangle)]
pub extern "C" fn joshkamber_name_in_windows(text: &[u8], order: usize) -> NamePlace
    ensures { result ≡ place_of (name_in Windows text.now order) }
{
    sheet::order_name_place(text, order, Form::Windows)
}

// The same for the timetable form.
#[unsafe(no_mangle)]
pub extern "C" fn joshkamber_name_in_timetable(text: &[u8], order: usize) -> NamePlace
    ensures { result ≡ place_of (name_in Timetable text.now order) }
{
    sheet::order_name_place(text, order, Form::Timetable)
}

// Lists the pairs of a sheet of the window form.
#[unsafe(no_mangle)]
pub extern "C" fn joshkamber_list_windows(sheet: WindowSheet, pairs: &mut [i64]) -> Listing
    ensures { ExportedListing (window_sheet sheet) result pairs.new pairs.old }
{
    Listing::from(listing::list(sheet, pairs))
}

// Lists the pairs of a sheet of the timetable form.
#[unsafe(no_mangle)]
pub extern "C" fn joshkamber_list_timetable(sheet: TimetableSheet, pairs: &mut [i64]) -> Listing
    ensures { ExportedListing (timetable_sheet sheet) result pairs.new pairs.old }
{
    Listing::from(listing::list(sheet, pairs))
}

// Chooses the plan of a sheet of the window form for a wished arrival.
#[unsafe(no_mangle)]
pub extern "C" fn joshkamber_choose_windows(
    sheet: WindowSheet,
    wish: u32,
    train_of_order: &mut [u8],
    times: &mut [u32],
) -> Choice
    ensures { ExportedChoice (window_sheet sheet) wish result (areas train_of_order.new times.new)
        (areas train_of_order.old times.old) }
{
    let reply = choosing::choose::<WindowSheet>(sheet, wish, train_of_order, times);
    Choice::from(reply)
}

// Chooses the plan of a sheet of the timetable form for a wished arrival.
#[unsafe(no_mangle)]
pub extern "C" fn joshkamber_choose_timetable(
    sheet: TimetableSheet,
    wish: u32,
    train_of_order: &mut [u8],
    times: &mut [u32],
) -> Choice
    ensures { ExportedChoice (timetable_sheet sheet) wish result (areas train_of_order.new times.new)
        (areas train_of_order.old times.old) }
{
    let reply = choosing::choose::<TimetableSheet>(sheet, wish, train_of_order, times);
    Choice::from(reply)
}

// What a reading call returns.
ghost use Rattle.std.specs.Prelude.{◌≡◌};
ghost use Rattle.exported.specs.Exported.{no_sheet};

use crate::Cause;
use borders::SheetOfForm;
use model::limits::{MOST_ORDERS, MOST_TRAINS, MOST_WINDOWS};
use model::{Form, Refusal, Sheet, TimetableSheet, WindowSheet};
use sheet::Reading;

// A text of the window form as read: the sheet, or the cause beside the empty sheet. An exported call returns no generic struct, so each form has its own.
#[repr(C)]
#[derive(Clone, Copy)]
pub struct WindowsRead {
    pub cause: Cause,
    pub sheet: WindowSheet,
}

// The same for the timetable form.
#[repr(C)]
#[derive(Clone, Copy)]
pub struct TimetableRead {
    pub cause: Cause,
    pub sheet: TimetableSheet,
}

// The empty sheet.
#[tactic(auto, unfolding(crate::specs::Exported::no_sheet))]
fn no_sheet(form: Form) -> Sheet
    ensures { result ≡ no_sheet form }
{
    Sheet {
        form,
        gap: 0,
        window_count: 0,
        window_from: [0; MOST_WINDOWS],
        window_to: [0; MOST_WINDOWS],
        train_count: 0,
        capacity: [0; MOST_TRAINS],
        running: [0; MOST_TRAINS],
        departure: [0; MOST_TRAINS],
        arrival: [0; MOST_TRAINS],
        order_count: 0,
        release: [0; MOST_ORDERS],
        due: [0; MOST_ORDERS],
        weight: [0; MOST_ORDERS],
    }
}

impl From<Result<Reading<WindowSheet>, Refusal>> for WindowsRead {
    ghost use Rattle.exported.specs.Exported.{windows_told};

    ghost from_gives = { λ reply read. read ≡ windows_told reply };

    fn from(reply: Result<Reading<WindowSheet>, Refusal>) -> WindowsRead {
        match reply {
            Ok(reading) => WindowsRead {
                cause: Cause::NONE,
                sheet: reading.sheet,
            },
            Err(refusal) => WindowsRead {
                cause: Cause::from(refusal),
                sheet: WindowSheet::of_sheet(no_sheet(Form::Windows)),
            },
        }
    }
}

impl From<Result<Reading<TimetableSheet>, Refusal>> for TimetableRead {
    ghost use Rattle.exported.specs.Exported.{timetable_told};

    ghost from_gives = { λ reply read. read ≡ timetable_told reply };

    fn from(reply: Result<Reading<TimetableSheet>, Refusal>) -> TimetableRead {
        match reply {
            Ok(reading) => TimetableRead {
                cause: Cause::NONE,
                sheet: reading.sheet,
            },
            Err(refusal) => TimetableRead {
                cause: Cause::from(refusal),
                sheet: TimetableSheet::of_sheet(no_sheet(Form::Timetable)),
            },
        }
    }
}

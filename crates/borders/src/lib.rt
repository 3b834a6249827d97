// The sheets that callers hold: of one form, laid out as in C, or of either. Each means a sheet of the model.
#![tactic(auto)]

ghost use Rattle.std.specs.Prelude.{◌≡◌};
ghost use Rattle.model.specs.Sheet.{Sheet as SheetOfModel};
ghost use Rattle.model.specs.Memory.{sheet_of, from_windows, to_windows, from_timetable, to_timetable, window_sheet, timetable_sheet};
ghost use Rattle.model.specs.declared.Form.{Form as FormOf};
ghost use Rattle.model.specs.declared.Form.TheVariants as form;
ghost use Rattle.model.specs.declared.Sheet.{Sheet as SheetInMemory};
ghost use Rattle.std.proofs.Common.{rules};

use model::limits::{MOST_TRAINS, MOST_WINDOWS};
use model::{Form, Sheet, TimetableSheet, WindowSheet};

// A sheet of any kind, as a caller lends it to a planning call.
pub trait AnySheet: Copy {
    // the sheet of the model that it means
    ghost meant: { Self → SheetOfModel };

    // It as a sheet in memory of either form.
    fn to_sheet(self) -> Sheet
        ensures { sheet_of result ≡ meant self };
}

// The struct of one form, as a caller is given it.
pub trait SheetOfForm: AnySheet {
    // the form
    ghost form: { FormOf };

    // the columns of that form
    ghost columns_of: { SheetInMemory → Self };

    // What the form is.
    fn form() -> Form
        ensures { result ≡ form };

    // The columns of that form; those of the other are left out.
    fn of_sheet(sheet: Sheet) -> Self
        ensures { result ≡ columns_of sheet };

    // Of a sheet of that form they mean the same.
    ghost keeps: { (s : SheetInMemory) → s.form ≡ form → Self.meant (columns_of s) ≡ sheet_of s };
}

impl AnySheet for Sheet {
    ghost meant = { sheet_of };

    fn to_sheet(self) -> Sheet {
        self
    }
}

impl AnySheet for WindowSheet {
    ghost meant = { window_sheet };

    // The timetable's columns are noughts.
    fn to_sheet(self) -> Sheet
        ensures { result ≡ from_windows self }
    {
        let WindowSheet {
            gap,
            window_count,
            window_from,
            window_to,
            train_count,
            capacity,
            running,
            order_count,
            release,
            due,
            weight,
        } = self;
        Sheet {
            form: Form::Windows,
            gap,
            window_count,
            window_from,
            window_to,
            train_count,
            capacity,
            running,
            departure: [0; MOST_TRAINS],
            arrival: [0; MOST_TRAINS],
            order_count,
            release,
            due,
            weight,
        }
    }
}

impl AnySheet for TimetableSheet {
    ghost meant = { timetable_sheet };

    // The windows' columns are noughts.
    fn to_sheet(self) -> Sheet
        ensures { result ≡ from_timetable self }
    {
        let TimetableSheet {
            train_count,
            capacity,
            departure,
            arrival,
            order_count,
            release,
            due,
            weight,
        } = self;
        Sheet {
            form: Form::Timetable,
            gap: 0,
            window_count: 0,
            window_from: [0; MOST_WINDOWS],
            window_to: [0; MOST_WINDOWS],
            train_count,
            capacity,
            running: [0; MOST_TRAINS],
            departure,
            arrival,
            order_count,
            release,
            due,
            weight,
        }
    }
}

impl SheetOfForm for WindowSheet {
    ghost form = { form.Windows };

    ghost columns_of = { to_windows };

    ghost keeps = { λ s e. Prim.search rules };

    fn form() -> Form {
        Form::Windows
    }

    fn of_sheet(sheet: Sheet) -> WindowSheet {
        let Sheet {
            gap,
            window_count,
            window_from,
            window_to,
            train_count,
            capacity,
            running,
            order_count,
            release,
            due,
            weight,
            ..
        } = sheet;
        WindowSheet {
            gap,
            window_count,
            window_from,
            window_to,
            train_count,
            capacity,
            running,
            order_count,
            release,
            due,
            weight,
        }
    }
}

impl SheetOfForm for TimetableSheet {
    ghost form = { form.Timetable };

    ghost columns_of = { to_timetable };

    ghost keeps = { λ s e. Prim.search rules };

    fn form() -> Form {
        Form::Timetable
    }

    fn of_sheet(sheet: Sheet) -> TimetableSheet {
        let Sheet {
            train_count,
            capacity,
            departure,
            arrival,
            order_count,
            release,
            due,
            weight,
            ..
        } = sheet;
        TimetableSheet {
            train_count,
            capacity,
            departure,
            arrival,
            order_count,
            release,
            due,
            weight,
        }
    }
}

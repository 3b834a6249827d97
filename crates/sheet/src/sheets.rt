// The columns of the lines as a sheet in memory, and the places of its names.
ghost use Rattle.std.specs.Prelude.{◌≡◌};
ghost use Rattle.sheet.specs.Sheets.{sheet_from, names_from};

use fields::NamePlaces;
use gather::SheetLines;
use model::{Form, Sheet};
use rows::{OrderRows, TrainRows, WindowRows};

#[tactic(auto, unfolding(crate::specs::Sheets::sheet_from))]
pub fn sheet_from(form: Form, lines: SheetLines) -> Sheet
    ensures { result ≡ sheet_from form lines }
{
    let SheetLines {
        gap,
        windows,
        trains,
        orders,
        ..
    } = lines;
    let WindowRows {
        count: window_count,
        from: window_from,
        to: window_to,
    } = windows;
    let TrainRows {
        count: train_count,
        capacity,
        running,
        departure,
        arrival,
    } = trains;
    let OrderRows {
        count: order_count,
        release,
        due,
        weight,
        ..
    } = orders;
    Sheet {
        form,
        gap: gap.unwrap_or(0),
        window_count,
        window_from,
        window_to,
        train_count,
        capacity,
        running,
        departure,
        arrival,
        order_count,
        release,
        due,
        weight,
    }
}

#[tactic(auto, unfolding(crate::specs::Sheets::names_from))]
pub fn names_from(lines: SheetLines) -> NamePlaces
    ensures { result ≡ names_from lines }
{
    let orders = lines.orders;
    let start = orders.name_start;
    let length = orders.name_length;
    NamePlaces {
        count: orders.count,
        start,
        length,
    }
}

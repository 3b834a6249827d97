// Test 21.
ghost use Rattle.std.specs.Prelude.{◌≡◌, true, ◌<◌, length};
ghost use Rattle.model.specs.Memory.{sheet_of};
ghost use Rattle.model.specs.Gone.{went_well as went_well_of};
ghost use Rattle.foreign.specs.Gathered.{OfRows};
ghost use Rattle.gone.specs.GonePart.{gone_part, Gathered};

use columns::none_above;
use foreign::Given;
use foreign::fit::{column_of, within};
use model::admitted::AdmittedSheet;
use model::limits::MOST_TRAINS;
use rules::departures::first_are_allowed;
use rules::{are_released, have_room};

// Whether trains have gone well by this minute: as the departures and the gathered rows say, by the rules, and one train at least remains.
pub fn went_well(sheet: AdmittedSheet, departures: &[u32], given: Given, minute: u32) -> bool
    ensures is { OfRows given (λ rows. result ≡ went_well_of (sheet_of sheet.columns) (gone_part departures.now rows minute)) }
    ensures gathered { result ≡ true → Gathered given }
    ensures remains { result ≡ true → length departures.now < sheet.columns.train_count }
{
    let n = sheet.columns.order_count;
    let gone = departures.len();
    if sheet.columns.train_count <= gone {
        return false;
    }
    if !within(given, n, gone) {
        return false;
    }
    let train = given.train;
    let departure = column_of(departures);
    let capacity = sheet.columns.capacity;
    let release = sheet.columns.release;
    let room = have_room(n, gone, capacity, train);
    let released = are_released(n, release, train, departure);
    let allowed = first_are_allowed(sheet, gone, departure);
    let left = none_above(gone, departure, [minute; MOST_TRAINS]);
    room & released & allowed & left
}

// Replanning after some trains have gone, of the window form. The rows of order and train of the gone part are a lent list of records, laid out as in C.
ghost use Rattle.rounds.specs.Told.{areas};
ghost use Rattle.replan.specs.Relisting.{RelistedAt};
ghost use Rattle.replan.specs.Rechoosing.{RechosenAt};
ghost use Rattle.exported.specs.InNumbers.{InNumbers};
ghost use Rattle.exported.specs.ExportedPlanning.{listing_of, choice_of};

use exported::{Choice, Listing};
use model::Row;
use replan::{WindowsAt, rechoose_windows, relist_windows};

// Lists the pairs behind gone trains.
#[unsafe(no_mangle)]
pub extern "C" fn joshkamber_relist_windows(
    at: WindowsAt,
    departures: &[u32],
    rows: &[Row],
    pairs: &mut [i64],
) -> Listing
    ensures { InNumbers listing_of (λ x. RelistedAt at departures.now rows.now x pairs.new pairs.old) result }
{
    Listing::from(relist_windows(at, departures, rows, pairs))
}

// Chooses a plan behind gone trains for a wished arrival.
#[unsafe(no_mangle)]
pub extern "C" fn joshkamber_rechoose_windows(
    at: WindowsAt,
    wish: u32,
    departures: &[u32],
    rows: &[Row],
    train_of_order: &mut [u8],
    times: &mut [u32],
) -> Choice
    ensures { InNumbers choice_of (λ x. RechosenAt at wish departures.now rows.now x
        (areas train_of_order.new times.new) (areas train_of_order.old times.old)) result }
{
    let reply = rechoose_windows(at, wish, departures, rows, train_of_order, times);
    Choice::from(reply)
}

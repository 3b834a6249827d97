// Replanning after some trains have gone (document 02, No. 13): the two calls of planning, behind the gone trains. Only window sheets are meant. The gone part
// is one departure for each gone train, and rows of order and train.
#![tactic(auto)]

ghost use Rattle.model.specs.Memory.{sheet_of};
ghost use Rattle.rounds.specs.Told.{areas};
ghost use Rattle.foreign.specs.Gathered.{OfRows};
ghost use Rattle.gone.specs.GonePart.{gone_part};
ghost use Rattle.replan.specs.Relisting.{RelistingCall, RelistedAt};
ghost use Rattle.replan.specs.Rechoosing.{RechoosingCall, RechosenAt};

use borders::AnySheet;
use choosing::choose_from;
use foreign::{Given, gather};
use gone::set_out;
use listing::list_from;
use model::{Listed, PlanPair, Refusal, Row, Sheet, WindowSheet};

// A sheet of the window form that is planned anew at a minute, when some of its first trains have left.
#[repr(C)]
#[derive(Clone, Copy)]
pub struct WindowsAt {
    pub sheet: WindowSheet,
    pub minute: u32,
}

// Lists the pairs behind the gone trains: 4, 5, 2, 6, 7 and 10 as for listing, then 21, then 8.
fn relist(
    sheet: Sheet,
    minute: u32,
    departures: &[u32],
    given: Given,
    pairs: &mut [i64],
) -> Result<Listed, Refusal>
    ensures { OfRows given (λ rows. RelistingCall (sheet_of sheet) (gone_part departures.now rows minute) result
        pairs.new pairs.old) }
{
    let sheet = room::for_listing(sheet, pairs.len())?;
    let outset = set_out(sheet, departures, given, minute)?;
    list_from(sheet, outset, pairs)
}

// Chooses a plan behind the gone trains: the same tests, for the areas that it fills, then 8 and 11.
fn rechoose(
    sheet: Sheet,
    minute: u32,
    wish: u32,
    departures: &[u32],
    given: Given,
    train_of_order: &mut [u8],
    times: &mut [u32],
) -> Result<PlanPair, Refusal>
    ensures { OfRows given (λ rows. RechoosingCall (sheet_of sheet) (gone_part departures.now rows minute) wish result
        (areas train_of_order.new times.new) (areas train_of_order.old times.old)) }
{
    let sheet = room::for_choosing(sheet, train_of_order.len(), times.len())?;
    let outset = set_out(sheet, departures, given, minute)?;
    choose_from(sheet, outset, wish, train_of_order, times)
}

// Lists for a sheet at a minute, where the rows are gathered.
pub fn relist_gathered(
    at: WindowsAt,
    departures: &[u32],
    given: Given,
    pairs: &mut [i64],
) -> Result<Listed, Refusal>
    ensures { OfRows given (λ rows. RelistedAt at departures.now rows result pairs.new pairs.old) }
{
    let sheet = at.sheet.to_sheet();
    relist(sheet, at.minute, departures, given, pairs)
}

// Chooses for a sheet at a minute, where the rows are gathered.
pub fn rechoose_gathered(
    at: WindowsAt,
    wish: u32,
    departures: &[u32],
    given: Given,
    train_of_order: &mut [u8],
    times: &mut [u32],
) -> Result<PlanPair, Refusal>
    ensures { OfRows given (λ rows. RechosenAt at wish departures.now rows result
        (areas train_of_order.new times.new) (areas train_of_order.old times.old)) }
{
    let sheet = at.sheet.to_sheet();
    rechoose(
        sheet,
        at.minute,
        wish,
        departures,
        given,
        train_of_order,
        times,
    )
}

// Lists for a sheet at a minute, the rows a lent list of records.
pub fn relist_windows(
    at: WindowsAt,
    departures: &[u32],
    rows: &[Row],
    pairs: &mut [i64],
) -> Result<Listed, Refusal>
    ensures { RelistedAt at departures.now rows.now result pairs.new pairs.old }
{
    let given = gather(rows);
    relist_gathered(at, departures, given, pairs)
}

// Chooses for a sheet at a minute, the rows a lent list of records.
pub fn rechoose_windows(
    at: WindowsAt,
    wish: u32,
    departures: &[u32],
    rows: &[Row],
    train_of_order: &mut [u8],
    times: &mut [u32],
) -> Result<PlanPair, Refusal>
    ensures { RechosenAt at wish departures.now rows.now result
        (areas train_of_order.new times.new) (areas train_of_order.old times.old) }
{
    let given = gather(rows);
    rechoose_gathered(at, wish, departures, given, train_of_order, times)
}

// Document 01, "The sheet": a text becomes a sheet in memory, or is refused with its first fault.
#![tactic(auto)]

mod sheets;
mod text_reader;
mod walk;

ghost use Rattle.std.specs.Prelude.{◌≡◌};
ghost use Rattle.model.specs.Memory.{sheet_of};
ghost use Rattle.fields.specs.NamePlaces.{IsPart, place_of};
ghost use Rattle.sheet.specs.Sheets.{reading, reading_as};
ghost use Rattle.sheet.specs.ReadingCall.{ReadingCall};
ghost use Rattle.sheet.specs.OrderNames.{name_in};

use borders::SheetOfForm;
use fields::name::{name_part, name_place};
use fields::{NamePlace, NamePlaces};
use model::{Form, Refusal, Sheet};

// A text and the position in it.
#[derive(Clone, Copy)]
struct Reader<'a> {
    text: &'a [u8],
    at: usize,
}

// What reading a text gives: the sheet, as a sheet in memory or as the struct of its form, and where the names of its orders stand.
#[derive(Clone, Copy)]
pub struct Reading<S> {
    pub sheet: S,
    pub names: NamePlaces,
}

// A text of either form, as a sheet in memory, or its first refusal. The text is only read.
pub fn read(text: &[u8], form: Form) -> Result<Reading<Sheet>, Refusal>
    ensures { ReadingCall sheet_of text.now (reading form text.now) result }
{
    let lines = text_reader::whole(text, form)?;
    Ok(Reading {
        sheet: sheets::sheet_from(form, lines),
        names: sheets::names_from(lines),
    })
}

// A text of one form, as the struct of that form, for callers from outside.
pub fn read_form<S: SheetOfForm>(text: &[u8]) -> Result<Reading<S>, Refusal>
    ensures { ReadingCall S.meant text.now (reading_as S.columns_of S.form text.now) result }
{
    let Reading { sheet, names } = read(text, S::form())?;
    Ok(Reading {
        sheet: S::of_sheet(sheet),
        names,
    })
}

// The name of an order of a text, as that part of the text; orders are numbered from 1. It is empty where the text is refused or there is no such order.
pub fn order_name(text: &[u8], order: usize, form: Form) -> &[u8]
    ensures { IsPart text.entry result (name_in form text.now order) }
{
    match read(text, form) {
        Ok(found) => name_part(text, found.names, order),
        Err(_) => &text[..0],
    }
}

// Where that name stands in the text, for a caller that cannot be handed a part of it.
pub fn order_name_place(text: &[u8], order: usize, form: Form) -> NamePlace
    ensures { result ≡ place_of (name_in form text.now order) }
{
    match read(text, form) {
        Ok(found) => name_place(found.names, order),
        Err(_) => NamePlace::default(),
    }
}

// A reader over the caller's text and its position in it. It is taken apart for a function that has the text and the position.
ghost use Rattle.std.specs.Prelude.{◌≡◌};
ghost use Rattle.sheet.specs.Reading.{read_from};

use crate::Reader;
use crate::walk::lines_from;
use gather::SheetLines;
use model::{Form, Refusal};

impl<'a> Reader<'a> {
    // A reader at the first line.
    fn open(text: &'a [u8]) -> Reader<'a>
        ensures { (result.text ≡ text.entry) × (result.at ≡ 0) }
    {
        Reader { text, at: 0 }
    }

    // The lines from the reader's position on.
    fn rest(self, form: Form) -> Result<SheetLines, Refusal>
        ensures { result ≡ read_from form self.entry.text.now self.entry.at }
    {
        lines_from(self.text, self.at, form)
    }
}

// All lines of a text.
pub fn whole(text: &[u8], form: Form) -> Result<SheetLines, Refusal>
    ensures { result ≡ read_from form text.now 0 }
{
    Reader::open(text).rest(form)
}

// The lines of a text, one by one, and what they say together.
ghost use Rattle.std.specs.Prelude.{◌≡◌};
ghost use Rattle.sheet.specs.Reading.{read_from};

use gather::SheetLines;
use lines::{LineAt, line_at};
use model::{Form, Refusal};

// The lines from a position on, or the first refusal.
pub fn lines_from(text: &[u8], start: usize, form: Form) -> Result<SheetLines, Refusal>
    ensures { result ≡ read_from form text.now start }
{
    let mut lines = SheetLines::default();
    let mut p = start;
    let mut line: usize = 1;
    // Where a line ends is known only once it is read: no range or slice has the positions that a `for` could go over.
    while p < text.len() {
        let LineAt { line: read, next } = line_at(text, p, line)?;
        lines.line_fault(form, line, read)?;
        lines.push(read);
        p = next;
        line += 1;
    }
    lines.end_fault(form)?;
    Ok(lines)
}

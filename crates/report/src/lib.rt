// What the programs read and print: the text of a sheet, and the plan of it or its refusal.
#![tactic(auto)]

ghost use Rattle.std.specs.Prelude.{◌<◌, ◌≤◌, IfOk, length, take};
ghost use Rattle.std.specs.Io.KnownBytes.{Consumes, IsAtEnd};

use model::limits::MOST_PRINTED;
use std::io::{self, Print, Read, Write};

// A text is read as far as this many bytes.
pub const MOST_TEXT: usize = 65536;

// Reads until the buffer is full or the input ends. Gives how many bytes it put to the front of the buffer.
pub fn read_text<R: Read>(reader: &mut R, text: &mut [u8]) -> io::Result<usize>
    ensures within { IfOk result (λ n. n ≤ length text.new) }
    ensures bytes { IfOk result (λ n. Consumes (R.remaining reader.old) (R.remaining reader.new) (take n text.new)) }
    ensures end { IfOk result (λ n. n < length text.new → IsAtEnd (R.remaining reader.new)) }
{
    let mut done = 0;
    // a while: the input says when it ends
    while done < text.len() {
        let count = reader.read(&mut text[done..])?;
        if count == 0 {
            break;
        }
        done += count;
    }
    Ok(done)
}

// Prints the plan of a text, or its refusal, to standard output.
pub fn print<P: Print>(rt: &P, text: &[u8]) -> io::Result<()> {
    let mut page: [u8; MOST_PRINTED] = [0; MOST_PRINTED];
    let length = desk::print_text(text, &mut page);
    io::writer(rt).write_all(&page[..length])
}

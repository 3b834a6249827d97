// Document 01, "The printed plan", and document 02, No. 2: the lines, as bytes in a lent buffer. The bytes are defined in specs/Lines.antt.
#![tactic(auto)]

ghost use Rattle.std.specs.Prelude.{◌≡◌, ◌/◌, length};
ghost use Rattle.model.specs.Limits.{numbers_a_pair, numbers_a_train};
ghost use Rattle.layout.specs.Lines.{pair_line, time_line, order_line, rounds_line, refusal_line, pair_lines, time_lines, name_of, order_lines};
ghost use Rattle.writing.specs.Writing.{Puts};

use fields::NamePlaces;
use fields::name::name_part;
use model::Refusal;
use model::limits::{NUMBERS_A_PAIR, NUMBERS_A_TRAIN};
use writing::Page;

// Each kind of line has fields of its own, so each has its function.
fn pair_line(page: &mut Page<'_>, last: i64, worst: i64)
    ensures { Puts (pair_line last worst) page.old page.new }
{
    page.put(b'P');
    page.signed_field(last);
    page.signed_field(worst);
    page.put(b'\n');
}

// The P lines.
pub fn pair_lines(page: &mut Page<'_>, pairs: &[i64])
    ensures { Puts (pair_lines pairs.now (length pairs.now / numbers_a_pair)) page.old page.new }
{
    for pair in pairs.chunks_exact(NUMBERS_A_PAIR) {
        pair_line(page, pair[0], pair[1]);
    }
}

fn time_line(page: &mut Page<'_>, train: usize, departure: u32, arrival: u32, window: u32)
    ensures { Puts (time_line train departure arrival window) page.old page.new }
{
    page.put(b'D');
    page.number_field(train as u64);
    page.number_field(departure as u64);
    page.number_field(arrival as u64);
    page.number_field(window as u64);
    page.put(b'\n');
}

// The D lines.
pub fn time_lines(page: &mut Page<'_>, times: &[u32])
    ensures { Puts (time_lines times.now (length times.now / numbers_a_train)) page.old page.new }
{
    for (i, train) in times.chunks_exact(NUMBERS_A_TRAIN).enumerate() {
        time_line(page, i + 1, train[0], train[1], train[2]);
    }
}

fn order_line(page: &mut Page<'_>, name: &[u8], train: u8)
    ensures { Puts (order_line name.now train) page.old page.new }
{
    page.put(b'L');
    page.name_field(name);
    page.number_field(train as u64);
    page.put(b'\n');
}

// The L lines.
pub fn order_lines(page: &mut Page<'_>, text: &[u8], names: NamePlaces, trains: &[u8])
    ensures { Puts (order_lines (name_of text.now names) trains.now (length trains.now)) page.old page.new }
{
    for (i, train) in trains.iter().enumerate() {
        let order = i + 1;
        let name = name_part(text, names, order);
        order_line(page, name, *train);
    }
}

pub fn rounds_line(page: &mut Page<'_>, rounds: usize)
    ensures { Puts (rounds_line rounds) page.old page.new }
{
    page.put(b'R');
    page.number_field(rounds as u64);
    page.put(b'\n');
}

// The E line.
pub fn refusal_line(page: &mut Page<'_>, refusal: Refusal)
    ensures { Puts (refusal_line refusal) page.old page.new }
{
    let number = refusal.number();
    let returned = refusal.returned();
    page.put(b'E');
    page.number_field(number as u64);
    page.number_field(returned as u64);
    page.put(b'\n');
}

// Plans the sheet on standard input, and prints the plan or the refusal.
#![tactic(auto)]

use report::MOST_TEXT;
use std::io;

fn main(rt: HostRuntime) -> io::Result<()> {
    let mut text = [0u8; MOST_TEXT];
    let length = report::read_text(&mut rt.stdin(), &mut text)?;
    report::print(&rt, &text[..length])
}

// Plans each stored sheet that the file `list` names, and prints its name and its plan. The names end with byte 10 each.
#![tactic(auto)]

use report::MOST_TEXT;
use std::fs::{self, File};
use std::io;

fn plan_file(rt: &HostRuntime, name: &str) -> io::Result<()> {
    println!(rt; "{name}")?;
    let mut text = [0u8; MOST_TEXT];
    let mut file = File::open(rt, name)?;
    let length = report::read_text(&mut file, &mut text)?;
    report::print(rt, &text[..length])
}

fn main(rt: HostRuntime) -> io::Result<()> {
    let names = fs::read_to_string(&rt, "list")?;
    for line in names.split_inclusive('\n') {
        if let Some(name) = line.strip_suffix('\n') {
            plan_file(&rt, name)?;
        }
    }
    Ok(())
}

// A readout at the desk: sets a logger, runs plans on it, and prints every question with the limits that it leads to.
// Standard input: on each line one of `diagonal SPAN RISE`, `table V V …`, `spacing N` and `rectangle N`.
#![tactic(auto)]

mod answers;
mod kinds;
mod lines;
mod notes;
mod reading;
mod runs;
mod sessions;
mod words;

use lines::Unread;
use reading::read_line;
use sessions::Session;
use std::io::{BufRead, BufReader};

fn main(rt: HostRuntime) -> anyhow::Result<()> {
    answer_lines(&rt)
}

// Enters the lines one by one, and prints what each led to.
fn answer_lines(rt: &HostRuntime) -> anyhow::Result<()> {
    let mut session = Session::new();
    let lines = BufReader::new(rt.alloc(), rt.stdin())?.lines(rt.alloc());
    for (number, text) in (1u64..).zip(lines) {
        let text = text?;
        let line = match read_line(rt.alloc(), text.as_str()) {
            Ok(None) => continue,
            Ok(Some(line)) => Ok(line),
            Err(Unread::Unclear(fault)) => Err(fault),
            Err(Unread::Memory(error)) => return Err(error.into()),
        };
        match session.enter(line) {
            Ok(done) => println!(rt; "line {number}: {done}")?,
            Err(refusal) => println!(rt; "line {number}: {refusal}")?,
        }
    }
    Ok(())
}

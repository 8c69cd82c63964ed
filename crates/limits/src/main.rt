// Works out the limits of a sealed table's sum from answers that were written down.
// Standard input: the span and the two end values on the first line, then an argument and its value on each.
#![tactic(auto)]

mod lines;
mod notes;
mod words;

use lines::read_line;
use notes::Notes;
use std::io;
use std::io::{BufRead, BufReader};

fn main(rt: HostRuntime) -> io::Result<()> {
    let mut notes = Notes::new();
    let lines = BufReader::new(rt.alloc(), rt.stdin())?.lines(rt.alloc());
    for (number, text) in (1..=u64::MAX).zip(lines) {
        let text = text?;
        let Some(line) = read_line(text.as_str()).transpose() else {
            continue;
        };
        match notes.enter(line) {
            Ok(done) => println!(rt; "line {number}: {done}")?,
            Err(refusal) => println!(rt; "line {number}: refused: {refusal}")?,
        }
    }
    match notes.summary() {
        Some(summary) => println!(rt; "{summary}"),
        None => println!(rt; "no limits: the span and the two end values were never given"),
    }
}

// The largest sizes: makes loggers at their limits and one past them, runs both plans with all
// 254 questions on each that is made, and says what came of it. Reads nothing.
#![tactic(auto)]

mod rows;
mod tries;

use denials::Denial;
use logs::Limits;
use plans::Way;
use rows::{readings, values, words};
use std::io;
use trials_kinds::Found;
use tries::{Tried, try_counter, try_strip, try_table};

fn main(rt: HostRuntime) -> anyhow::Result<()> {
    say_all(&rt)
}

// Says of every size what it led to.
fn say_all(rt: &HostRuntime) -> anyhow::Result<()> {
    let heap = rt.alloc();
    let row = values(heap, 1_000_001)?;
    say(rt, "table of 1,000,001 values", try_table(row.as_slice()))?;
    let row = values(heap, 1_000_002)?;
    say(rt, "table of 1,000,002 values", try_table(row.as_slice()))?;
    let row = readings(heap, 1_000_000)?;
    say(
        rt,
        "counter of 1,000,000 readings",
        try_counter(row.as_slice(), 1_000_000),
    )?;
    let row = readings(heap, 1_000_001)?;
    say(
        rt,
        "counter of 1,000,001 readings",
        try_counter(row.as_slice(), 1_000_000),
    )?;
    let row = words(heap, 15_625)?;
    say(
        rt,
        "strip of 1,000,000 bits",
        try_strip(row.as_slice(), 1_000_000),
    )?;
    say(
        rt,
        "strip of span 1,000,001",
        try_strip(row.as_slice(), 1_000_001),
    )?;
    let row = words(heap, 15_624)?;
    say(
        rt,
        "strip of 999,936 bits",
        try_strip(row.as_slice(), 1_000_000),
    )?;
    Ok(())
}

// Says what a try gave.
fn say(rt: &HostRuntime, what: &str, tried: Result<Tried, Denial>) -> io::Result<()> {
    match tried {
        Ok(Tried { span, last, both }) => {
            println!(rt; "{what}: accepted, span {span}, last value {last}")?;
            say_found(rt, Way::EqualSpacing, both.spacing)?;
            say_found(rt, Way::WidestRectangle, both.widest)
        }
        Err(denial) => println!(rt; "{what}: {denial}"),
    }
}

// Says what a run found.
fn say_found(rt: &HostRuntime, plan: Way, found: Found) -> io::Result<()> {
    let asked = found.asked;
    let Limits { low, high } = found.sum;
    println!(rt; "  {plan}: asked {asked}, low {low}, high {high}")
}

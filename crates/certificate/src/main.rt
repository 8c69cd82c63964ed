// Certifies readings given as text on standard input. The kind of readings, the span and the number of questions
// are the arguments, or the words of the first line where there are none.
#![tactic(auto)]

mod decimals;
mod faults;
mod jobs;
mod readings;
mod sheets;
#[cfg(test)]
mod tests;
mod units;

use counters::{ClimateReading, SupplyReading};
use faults::BadLines;
use jobs::{Job, Kind, read_job};
use readings::Readings;
use sheets::Sheet;
use std::{env, io};
use units::Certified;

fn main(rt: HostRuntime) -> anyhow::Result<()> {
    let arguments = env::args(&rt)?.skip(1).collect::<Vec<String>>(rt.alloc())?;
    let input = io::read_to_string(rt.alloc(), rt.stdin())?;
    let text = input.as_str();
    if arguments.is_empty() {
        let (first, text) = text.split_once('\n').unwrap_or((text, ""));
        // a job has three words, and the fourth tells that there are more
        let words = first
            .split_whitespace()
            .take(4)
            .collect::<Vec<&str>>(rt.alloc())?;
        return certify_text(&rt, words.as_slice(), Readings { text, first: 2 });
    }
    // an argument may have several words in it
    let words = arguments
        .iter()
        .flat_map(|argument| argument.as_str().split_whitespace())
        .take(4)
        .collect::<Vec<&str>>(rt.alloc())?;
    certify_text(&rt, words.as_slice(), Readings { text, first: 1 })
}

// Certifies readings by the words of a job.
fn certify_text(rt: &HostRuntime, words: &[&str], readings: Readings) -> anyhow::Result<()> {
    let job = match read_job(words) {
        Ok(job) => job,
        Err(misuse) => {
            eprintln!(rt; "usage: certificate climate|supply SPAN QUESTIONS < READINGS")?;
            eprintln!(rt; "with no arguments the first line of the input has the three words")?;
            return Err(misuse.into());
        }
    };
    match job.kind {
        Kind::Climate => certify_readings::<ClimateReading>(rt, job, readings),
        Kind::Supply => certify_readings::<SupplyReading>(rt, job, readings),
    }
}

// Certifies readings of one kind, and prints the certificate or why there is none.
fn certify_readings<T: Certified + Drop>(
    rt: &HostRuntime,
    job: Job,
    readings: Readings,
) -> anyhow::Result<()> {
    let batch = readings.gather::<T>(rt.alloc())?;
    let lines = batch.bad_lines();
    if !lines.is_empty() {
        let lines = BadLines { lines };
        eprintln!(rt; "{lines}")?;
    }
    let report = batch.report(job.span, job.questions)?;
    let sheet = Sheet::<T>::new(report);
    println!(rt; "{sheet}")?;
    Ok(())
}

// The lines of a batch of readings, and its certificate.
ghost use Rattle.std.specs.Prelude.{◌≡◌, OnOk, Some};
ghost use Rattle.denials.specs.Checks.{Decided};
ghost use Rattle.records.specs.declared.batches.Refusal.TheVariants.{Denied};
ghost use Rattle.records.specs.Words.{bad_line_says, refusal_says};
ghost use Rattle.records.specs.Batches.{held, nothing, taken, Takes, why, stands, Drawn};

use super::kinds::{Fault, Written};
use super::lines::{Line, read_line};
use certificates::{Certificate, certify};
use denials::Denial;
use std::alloc::{AllocError, Global};
use std::error::Error;
use std::fmt;

// A line that is no reading, by its number from 1.
#[derive(Clone, Copy)]
pub struct BadLine {
    pub number: u64,
    pub fault: Fault,
}

impl fmt::Display for BadLine {
    ghost output = { λ bad. Some (bad_line_says bad) };

    fn fmt<W: fmt::Write>(&self, f: &mut fmt::Formatter<W>) -> fmt::Result {
        let number = self.number;
        let fault = self.fault;
        write!(f, "line {number}: {fault}")
    }
}

// The readings of the lines so far, the lines that are none, and whether a line that is not blank has come.
#[derive(Drop)]
pub struct Batch<T> {
    readings: Vec<T>,
    bad: Vec<BadLine>,
    // not to be told from the two rows: a header goes into neither
    begun: bool,
}

// A certificate, and how many of its readings lie below the one that has level 0.
#[derive(Clone, Copy)]
pub struct Report {
    pub certificate: Certificate,
    pub low: usize,
}

// Why nothing is certified.
#[derive(Clone, Copy, PartialEq, Eq, Debug)]
pub enum Refusal {
    // some lines are no readings
    BadLines,
    Denied(Denial),
}

impl fmt::Display for Refusal {
    ghost output = { λ refusal. Some (refusal_says refusal) };

    fn fmt<W: fmt::Write>(&self, f: &mut fmt::Formatter<W>) -> fmt::Result {
        match self {
            Refusal::BadLines => write!(f, "some lines are no readings"),
            Refusal::Denied(denial) => write!(f, "{denial}"),
        }
    }
}

impl Error for Refusal {}

impl From<Denial> for Refusal {
    ghost from_gives = { λ denial refusal. refusal ≡ Denied denial };

    fn from(denial: Denial) -> Refusal {
        Refusal::Denied(denial)
    }
}

impl<T: Written + Drop> Batch<T> {
    // No line yet.
    pub fn new(heap: Global) -> Batch<T>
        ensures { held result ≡ nothing }
    {
        Batch {
            readings: Vec::new(heap),
            bad: Vec::new(heap),
            begun: false,
        }
    }

    // Takes in a line by its number.
    pub fn enter(&mut self, number: u64, text: &str) -> Result<(), AllocError>
        ensures { OnOk result (Takes T.Written.says (held self.old) number text.now (held self.new)) }
    {
        let line = read_line(text, !self.begun);
        self.take(number, line)
    }

    // Takes in what a line holds.
    fn take(&mut self, number: u64, line: Result<Line<T>, Fault>) -> Result<(), AllocError>
        ensures { OnOk result (held self.new ≡ taken (held self.old) number line) }
    {
        match line {
            Ok(Line::Blank) => return Ok(()),
            Ok(Line::Header) => {}
            Ok(Line::Reading(reading)) => self.readings.push(reading)?,
            Err(fault) => self.bad.push(BadLine { number, fault })?,
        }
        self.begun = true;
        Ok(())
    }

    // The lines that are no readings.
    pub fn bad_lines(&self) -> &[BadLine]
        ensures { result.now ≡ (held self.now).bad }
    {
        self.bad.as_slice()
    }

    // Certifies the readings, where every line is one.
    pub fn report(&self, span: u32, questions: u32) -> Result<Report, Refusal>
        ensures { Decided why (stands (held self.now) span questions) result (Drawn T.Level.height T.OwnUnit.zero T.Written.low (held self.now).readings span questions) (Unit {0}) }
    {
        if !self.bad.is_empty() {
            return Err(Refusal::BadLines);
        }
        let readings = self.readings.as_slice();
        Ok(Report {
            certificate: certify(readings, span, questions)?,
            low: readings.iter().filter(|reading| reading.is_low()).count(),
        })
    }
}

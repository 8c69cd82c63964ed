// The kinds of readings, and what a line says in each.
ghost use Rattle.std.specs.Prelude.{◌≡◌, ℕ, Bool, false, List, Result, MatchOption, Some};
ghost use Rattle.records.specs.declared.kinds.Fault.{Fault as Why};
ghost use Rattle.records.specs.Words.{fault_says};
ghost use Rattle.records.specs.Saying.{Lacks, AtComma, SaysClimate, SaysSupply, too_cold};

use super::numbers::whole;
use counters::{ClimateReading, OwnUnit, SupplyReading};
use std::error::Error;
use std::fmt;

// Why a line is no reading.
#[derive(Clone, Copy, PartialEq, Eq, Debug)]
pub enum Fault {
    // no comma between a minute and a temperature
    NoComma,
    // the minute is no whole number up to 4,294,967,295
    Minute,
    // the temperature is no whole number from −32768 to 32767
    Temperature,
    // the millivolts are no whole number up to 65535
    Millivolts,
}

impl fmt::Display for Fault {
    ghost output = { λ fault. Some (fault_says fault) };

    fn fmt<W: fmt::Write>(&self, f: &mut fmt::Formatter<W>) -> fmt::Result {
        f.write_str(match self {
            Fault::NoComma => "there is no comma between a minute and a temperature",
            Fault::Minute => "the minute is no whole number up to 4,294,967,295",
            Fault::Temperature => {
                "the temperature is no whole number of hundredths of a degree from −32768 to 32767"
            }
            Fault::Millivolts => "the millivolts are no whole number up to 65535",
        })
    }
}

impl Error for Fault {}

// A kind of reading that can be read from a line of text.
pub trait Written: OwnUnit + Sized {
    // what a line says
    ghost says: { List ℕ → Result Self Why → Type 0 };

    // the reading lies below the one that has level 0
    ghost low: { Self → Bool };

    // The reading that a line says, or why it is none.
    fn read(text: &str) -> Result<Self, Fault>
        ensures { says text.now result };

    // Whether the reading lies below the one that has level 0.
    fn is_low(&self) -> bool
        ensures { result ≡ low self.now };
}

impl Written for ClimateReading {
    ghost says = { SaysClimate };

    ghost low = { λ r. too_cold r.temperature };

    fn read(text: &str) -> Result<ClimateReading, Fault> {
        let (minute, temperature) = at_comma(text).ok_or(Fault::NoComma)?;
        Ok(ClimateReading {
            minute: whole(minute).ok_or(Fault::Minute)?,
            temperature: whole(temperature).ok_or(Fault::Temperature)?,
        })
    }

    fn is_low(&self) -> bool {
        self.temperature < -4_000
    }
}

impl Written for SupplyReading {
    ghost says = { SaysSupply };

    ghost low = { λ _. false };

    fn read(text: &str) -> Result<SupplyReading, Fault> {
        let millivolts = whole(text).ok_or(Fault::Millivolts)?;
        Ok(SupplyReading { millivolts })
    }

    fn is_low(&self) -> bool {
        false
    }
}

// What stands before the first comma, and what after it.
fn at_comma(text: &str) -> Option<(&str, &str)>
    ensures { MatchOption result (Lacks 44 text.now) (λ x. AtComma text.now x.0.now x.1.now) }
{
    text.split_once(',')
}

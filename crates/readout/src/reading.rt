// What a readout tells.
ghost use Rattle.std.specs.Prelude.{◌≡◌};
ghost use Rattle.logs.specs.Points.{points};
ghost use Rattle.tables.specs.Log.{SharpLimits};
ghost use Rattle.readout.specs.Calls.{summary};
ghost use Rattle.readout.specs.Levels.{levels, last_everywhere, Above};
ghost use Rattle.readout.specs.Views.{view};

use super::events::Summary;
use super::readouts::Readout;
use logs::{Limits, Log};

impl Readout {
    // The limits of the sum so far, by the formula and sharp, and the number of accepted answers.
    pub fn limits(&self) -> Summary
        ensures is { result ≡ summary (view self.now) }
        ensures sharp { SharpLimits (view self.now).points result.low result.high }
    {
        let limits = self.log.limits();
        Summary {
            low: limits.low,
            high: limits.high,
            answers: self.log.answers() as u32,
        }
    }

    // The log.
    pub fn log(&self) -> &Log
        ensures { points result.now ≡ (view self.now).points }
    {
        &self.log
    }

    // How many questions are left.
    pub fn left(&self) -> u32
        ensures { result ≡ (view self.now).left }
    {
        self.left
    }

    // The mark that its tickets carry.
    pub fn mark(&self) -> u16
        ensures { result ≡ (view self.now).mark }
    {
        self.mark
    }

    // The argument of the ticket that is out, if one is.
    pub fn waiting(&self) -> Option<u32>
        ensures { result ≡ (view self.now).out }
    {
        self.out
    }

    // The limits of the total of levels: the last value at every argument, less the limits of the sum.
    pub fn total_of_levels(&self) -> Limits
        ensures is { result ≡ levels (view self.now).points }
        ensures uncut { Above (view self.now).points (last_everywhere (view self.now).points) }
    {
        let all = self.last_everywhere();
        let limits = self.log.limits();
        Limits {
            low: all - limits.high,
            high: all - limits.low,
        }
    }

    // The last value, once for each argument.
    fn last_everywhere(&self) -> u64
        ensures is { result ≡ last_everywhere (view self.now).points }
        ensures above { Above (view self.now).points result }
    {
        self.log.last() as u64 * (self.log.span() as u64 + 1)
    }
}

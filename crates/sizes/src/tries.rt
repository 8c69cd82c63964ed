// Loggers of any size, made and tried with 254 questions.
ghost use Rattle.std.specs.Prelude.{◌≡◌, ◌-◌, length};
ghost use Rattle.bench.specs.Runs.{budget_denied};
ghost use Rattle.counters.specs.Counting.{counter_table};
ghost use Rattle.counters.specs.Makings.{counter_denied};
ghost use Rattle.denials.specs.Checks.{Decided};
ghost use Rattle.denials.specs.Told.{told};
ghost use Rattle.loggers.specs.Makings.{table_denied};
ghost use Rattle.loggers.specs.Meaning.{row_table};
ghost use Rattle.strips.specs.Bits.{strip_table};
ghost use Rattle.strips.specs.Makings.{strip_denied};
ghost use Rattle.sizes.specs.Rows.{millivolts};
ghost use Rattle.sizes.specs.Tried.{try_denied, TriedOn};

use counters::{Counter, SupplyReading};
use denials::Denial;
use loggers::{Logger, TableLogger};
use strips::DoorStrip;
use trials_kinds::{Both, run_both};

// A logger's span and last value, and what both plans found with 254 questions.
#[derive(Clone, Copy)]
pub struct Tried {
    pub span: u32,
    pub last: u32,
    pub both: Both,
}

// Tries the table logger of these values. Each kind of logger is made of rows of its own, so each has a call of its own.
pub fn try_table(values: &[u32]) -> Result<Tried, Denial>
    ensures { Decided told (try_denied (table_denied values.now) (length values.now - 1)) result (TriedOn (row_table values.now) (length values.now - 1)) (Unit {0}) }
{
    let mut place = TableLogger::new();
    place.fill(values)?;
    try_logger(&place)
}

// Tries the counter of these readings with this span.
pub fn try_counter(readings: &[SupplyReading], span: u32) -> Result<Tried, Denial>
    ensures { Decided told (try_denied (counter_denied span (length readings.now)) span) result (TriedOn (counter_table millivolts readings.now) span) (Unit {0}) }
{
    let mut place = Counter::new();
    place.fill(readings, span)?;
    try_logger(&place)
}

// Tries the strip of these words with this span.
pub fn try_strip(words: &[u64], span: u32) -> Result<Tried, Denial>
    ensures { Decided told (try_denied (strip_denied words.now span) span) result (TriedOn (strip_table words.now) span) (Unit {0}) }
{
    let mut place = DoorStrip::new();
    place.fill(words, span)?;
    try_logger(&place)
}

// Runs both plans on the logger.
fn try_logger<L: Logger>(logger: &L) -> Result<Tried, Denial>
    ensures { Decided told (budget_denied (L.Logger.extent logger.now) 254) result (TriedOn (L.Logger.table logger.now) (L.Logger.extent logger.now)) (Unit {0}) }
{
    Ok(Tried {
        span: logger.span(),
        last: logger.last(),
        both: run_both(logger, 254)?,
    })
}

// One count of a logger over a lent row, and its ends.
ghost use Rattle.std.specs.Prelude.{◌≡◌, ◌-◌, length};
ghost use Rattle.counters.specs.Counting.{counter_table};
ghost use Rattle.counters.specs.Makings.{counter_denied};
ghost use Rattle.loggers.specs.Makings.{table_denied};
ghost use Rattle.loggers.specs.Meaning.{counted, row_table};
ghost use Rattle.strips.specs.Bits.{strip_table};
ghost use Rattle.strips.specs.Makings.{strip_denied};
ghost use Rattle.exports.specs.Climate.{temperature_level};
ghost use Rattle.exports.specs.Replies.{Replied, answer_of, ends_of};

use super::making::{counter_over, strip_over};
use super::replies::{Reply, tell};
use counters::ClimateReading;
use loggers::{KeptTable, Logger};

// How many ones stand among the first x bits of a strip.
#[unsafe(no_mangle)]
pub extern "C" fn sealed_strip_count(words: &[u64], span: u32, x: u32) -> Reply
    ensures { Replied (strip_denied words.now span) result (λ s. s ≡ answer_of (counted (strip_table words.now) span x)) (Unit {0}) }
{
    tell(strip_over(words, span).map(|strip| count_at(&strip, x)))
}

// How many climate readings have a level of at most x.
#[unsafe(no_mangle)]
pub extern "C" fn sealed_climate_count(readings: &[ClimateReading], span: u32, x: u32) -> Reply
    ensures { Replied (counter_denied span (length readings.now)) result (λ s. s ≡ answer_of (counted (counter_table temperature_level readings.now) span x)) (Unit {0}) }
{
    tell(counter_over(readings, span).map(|counter| count_at(&counter, x)))
}

// The ends of a table, which has to be made for that.
#[unsafe(no_mangle)]
pub extern "C" fn sealed_table_ends(values: &[u32]) -> Reply
    ensures { Replied (table_denied values.now) result (λ s. s ≡ ends_of (row_table values.now) (length values.now - 1)) (Unit {0}) }
{
    tell(KeptTable::new(values).map(|table| ends(&table)))
}

// A logger's count at x.
fn count_at<L: Logger>(logger: &L, x: u32) -> Reply
    ensures { result ≡ answer_of (counted (L.Logger.table logger.now) (L.Logger.extent logger.now) x) }
{
    let count = logger.count(x);
    let value = count.unwrap_or(0) as u64;
    Reply {
        denial: 0,
        answers: count.is_some() as u32,
        low: value,
        high: value,
    }
}

// A logger's ends.
fn ends<L: Logger>(logger: &L) -> Reply
    ensures { result ≡ ends_of (L.Logger.table logger.now) (L.Logger.extent logger.now) }
{
    Reply {
        denial: 0,
        answers: 0,
        low: logger.first() as u64,
        high: logger.last() as u64,
    }
}

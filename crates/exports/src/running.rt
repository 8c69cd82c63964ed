// Runs of both plans on loggers over lent rows, and their score.
ghost use Rattle.std.specs.Prelude.{◌≡◌, ◌-◌, length};
ghost use Rattle.std.specs.Option.{option_or};
ghost use Rattle.bench.specs.Runs.{budget_denied};
ghost use Rattle.bench.specs.Scores.{score_denied};
ghost use Rattle.counters.specs.Counting.{counter_table};
ghost use Rattle.counters.specs.Makings.{counter_denied};
ghost use Rattle.denials.specs.Checks.{Decided};
ghost use Rattle.denials.specs.Told.{told};
ghost use Rattle.loggers.specs.Makings.{table_denied};
ghost use Rattle.loggers.specs.Meaning.{row_table};
ghost use Rattle.plans.specs.Ways.{plan_of as way_plan};
ghost use Rattle.strips.specs.Bits.{strip_table};
ghost use Rattle.strips.specs.Makings.{strip_denied};
ghost use Rattle.exports.specs.Climate.{temperature_level};
ghost use Rattle.exports.specs.Replies.{Replied, RunOf, plan_of, way_of, ScoreOf};

use super::making::{counter_over, strip_over};
use super::replies::{Reply, tell};
use bench::{Widths, read_out, score};
use counters::ClimateReading;
use denials::Denial;
use loggers::{KeptTable, Logger};
use plans::{Way, WidestRectangle};

// Runs a plan on the table logger of these values.
#[unsafe(no_mangle)]
pub extern "C" fn sealed_table_run(values: &[u32], widest: bool, questions: u32) -> Reply
    ensures { Replied (option_or (table_denied values.now) (budget_denied (length values.now - 1) questions)) result (RunOf (plan_of widest questions) (row_table values.now) (length values.now - 1) questions) (Unit {0}) }
{
    let way = way_of(widest);
    tell(KeptTable::new(values).and_then(|table| run_on(&table, way, questions)))
}

// Runs a plan on the strip of these words.
#[unsafe(no_mangle)]
pub extern "C" fn sealed_strip_run(words: &[u64], span: u32, widest: bool, questions: u32) -> Reply
    ensures { Replied (option_or (strip_denied words.now span) (budget_denied span questions)) result (RunOf (plan_of widest questions) (strip_table words.now) span questions) (Unit {0}) }
{
    let way = way_of(widest);
    tell(strip_over(words, span).and_then(|strip| run_on(&strip, way, questions)))
}

// Runs a plan on the counter of these climate readings.
#[unsafe(no_mangle)]
pub extern "C" fn sealed_climate_run(
    readings: &[ClimateReading],
    span: u32,
    widest: bool,
    questions: u32,
) -> Reply
    ensures { Replied (option_or (counter_denied span (length readings.now)) (budget_denied span questions)) result (RunOf (plan_of widest questions) (counter_table temperature_level readings.now) span questions) (Unit {0}) }
{
    let way = way_of(widest);
    tell(counter_over(readings, span).and_then(|counter| run_on(&counter, way, questions)))
}

// The plan that C asks for by a flag, since no enum passes to it.
fn way_of(widest: bool) -> Way
    ensures { result ≡ way_of widest }
{
    if widest {
        Way::WidestRectangle
    } else {
        Way::EqualSpacing
    }
}

// Runs the plan of this name, made for so many questions, with so many questions.
fn run_on<L: Logger>(logger: &L, way: Way, questions: u32) -> Result<Reply, Denial>
    ensures { Decided told (budget_denied (L.Logger.extent logger.now) questions) result (RunOf (way_plan way questions) (L.Logger.table logger.now) (L.Logger.extent logger.now) questions) (Unit {0}) }
{
    let mut plan = way.plan(questions)?;
    let (ran, _) = read_out(logger, &mut plan, questions)?;
    Ok(Reply {
        denial: 0,
        answers: ran.asked,
        low: ran.low,
        high: ran.high,
    })
}

// Scores the widest rectangle: the least width as the low limit, the width left as the high one.
#[unsafe(no_mangle)]
pub extern "C" fn sealed_score(
    span: u32,
    rise: u32,
    questions: u32,
    low_table: &mut [u32],
    high_table: &mut [u32],
) -> Reply
    ensures { Replied (score_denied span rise questions (length low_table.old) (length high_table.old)) result (ScoreOf rise span questions low_table.old low_table.new high_table.old high_table.new) ((low_table.new ≡ low_table.old) × (high_table.new ≡ high_table.old)) }
{
    let mut plan = WidestRectangle::new();
    let scored = score(&mut plan, span, rise, questions, low_table, high_table);
    tell(scored.map(|Widths { least, width }| Reply {
        denial: 0,
        answers: questions,
        low: least,
        high: width,
    }))
}

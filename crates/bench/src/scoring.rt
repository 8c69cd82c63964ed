// The score of a plan: its run on the diagonal, against the least width.
ghost use Rattle.std.specs.Prelude.{◌≡◌, ◌*◌, length};
ghost use Rattle.denials.specs.Checks.{Decided};
ghost use Rattle.denials.specs.Told.{told};
ghost use Rattle.tables.specs.Least.{least_width};
ghost use Rattle.bench.specs.Guarantee.{Guarantee};
ghost use Rattle.bench.specs.Scores.{score_denied, Fit, Scored};

use super::lines::Line;
use super::running::run;
use denials::Denial;
use loggers::{Diagonal, Logger};
use plans::Plan;
use readout::Readout;
use tables::least_width;

// What a plan is scored by: the width it leaves on the diagonal, and the least width that any plan can leave there.
#[derive(Clone, Copy)]
pub struct Widths {
    pub width: u64,
    pub least: u64,
}

// Runs the plan with a budget of questions on the diagonal, and writes the low and the high table
// of the log that is left into the first places of two rows.
// The contract carries the whole guarantee: of pasts, of plans on the bench, and of the best plan.
pub fn score<P: Plan>(
    plan: &mut P,
    span: u32,
    rise: u32,
    budget: u32,
    low_table: &mut [u32],
    high_table: &mut [u32],
) -> Result<Widths, Denial>
    ensures decided { Decided told (score_denied span rise budget (length low_table.old) (length high_table.old)) result (Scored (P.Plan.asks plan.old) rise span budget low_table.old low_table.new high_table.old high_table.new) ((low_table.new ≡ low_table.old) × (high_table.new ≡ high_table.old)) }
    ensures plan { P.Plan.asks plan.new ≡ P.Plan.asks plan.old }
    ensures guarantee { Guarantee }
{
    let diagonal = diagonal_for(span, rise, budget, low_table.len(), high_table.len())?;
    // over a place of its own, since the one that `read_out` hands over would be copied
    let mut line = Line::asleep();
    let mut place = Readout::new();
    // the run's checks and those of the rows are among those passed
    let ran = run(&diagonal, plan, budget, 0, &mut line, &mut place).unwrap();
    place.log().write_low(low_table).unwrap();
    place.log().write_high(high_table).unwrap();
    Ok(Widths {
        width: ran.high - ran.low,
        least: least_on(&diagonal, budget),
    })
}

// The diagonal to score on, where no check of a score fails.
fn diagonal_for(
    span: u32,
    rise: u32,
    budget: u32,
    low_len: usize,
    high_len: usize,
) -> Result<Diagonal, Denial>
    ensures { Decided told (score_denied span rise budget low_len high_len) result (Fit span rise budget low_len high_len) (Unit {0}) }
{
    let diagonal = Diagonal::new(span, rise)?;
    if budget > 254 || budget > span - 1 {
        return Err(Denial::Budget);
    }
    let needed = span as usize + 1;
    if low_len < needed || high_len < needed {
        return Err(Denial::Short(needed as u64));
    }
    Ok(diagonal)
}

// The least width that any plan with so many questions can leave on the diagonal.
fn least_on(diagonal: &Diagonal, budget: u32) -> u64
    ensures { result ≡ diagonal.now.rise * least_width diagonal.now.span budget }
{
    u64::from(diagonal.rise()) * least_width(diagonal.span(), budget)
}

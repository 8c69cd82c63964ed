// A certificate for a row of readings.
ghost use Rattle.std.specs.Prelude.{◌≤◌, length};
ghost use Rattle.bench.specs.Runs.{budget_denied};
ghost use Rattle.counters.specs.Counting.{counter_table};
ghost use Rattle.denials.specs.Checks.{Decided};
ghost use Rattle.denials.specs.Told.{told};
ghost use Rattle.readout.specs.Views.{view};
ghost use Rattle.certificates.specs.Certified.{Certified};
ghost use Rattle.certificates.specs.Checks.{certify_denied};
ghost use Rattle.certificates.specs.Readouts.{SpacedLog};

use super::means::{Mean, mean_of_levels};
use bench::read_out;
use counters::{Counter, OwnUnit};
use denials::Denial;
use loggers::Logger;
use logs::Limits;
use plans::EqualSpacing;
use readout::Readout;

// What is certified of a row of readings.
#[derive(Clone, Copy)]
pub struct Certificate {
    // how many readings have a level up to the span, and how many have one above it
    pub counted: u32,
    pub out_of_range: u32,
    pub span: u32,
    pub questions: u32,
    // the limits of the total of the levels counted
    pub total: Limits,
    // the limits of their mean in the readings' own unit; none where no reading is counted
    pub mean: Option<Mean>,
    // how far apart the limits of the total are, and the least that any plan could promise
    pub width: u64,
    pub least: u64,
}

// Counts the readings up to the span, reads the counter out by equal spacing with so many questions,
// and draws up the certificate.
pub fn certify<T: OwnUnit + Drop>(
    readings: &[T],
    span: u32,
    questions: u32,
) -> Result<Certificate, Denial>
    ensures { Decided told (certify_denied span (length readings.now) questions) result (Certified T.Level.height T.OwnUnit.zero readings.now span questions) (Unit {0}) }
{
    let mut counter = Counter::new();
    counter.fill(readings, span)?;
    let place = read_by_spacing(&counter, questions)?;
    Ok(draw_up(readings, span, questions, &place))
}

// The readout of a logger by equal spacing.
fn read_by_spacing<L: Logger>(logger: &L, questions: u32) -> Result<Readout, Denial>
    ensures { Decided told (budget_denied (L.Logger.extent logger.now) questions) result (λ place. SpacedLog (L.Logger.table logger.now) (L.Logger.extent logger.now) questions (view place).points) (Unit {0}) }
{
    let mut plan = EqualSpacing::new(questions)?;
    let (_, place) = read_out(logger, &mut plan, questions)?;
    Ok(place)
}

// The certificate of readings whose counter was read out.
fn draw_up<T: OwnUnit>(readings: &[T], span: u32, questions: u32, place: &Readout) -> Certificate
    requires spaced { SpacedLog (counter_table T.Level.height readings.now) span questions (view place.now).points }
    requires few { length readings.now ≤ 1000000 }
    ensures { Certified T.Level.height T.OwnUnit.zero readings.now span questions result }
{
    let counted = place.log().last();
    let total = place.total_of_levels();
    Certificate {
        counted,
        out_of_range: readings.len() as u32 - counted,
        span,
        questions,
        total,
        mean: mean_of_levels::<T>(place),
        width: total.width(),
        least: place.log().promise(),
    }
}

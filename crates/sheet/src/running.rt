// A run of a plan on a logger, and what is reported of it.
ghost use Rattle.std.specs.Prelude.{◌≡◌};
ghost use Rattle.bench.specs.Runs.{budget_denied};
ghost use Rattle.denials.specs.Checks.{Decided};
ghost use Rattle.denials.specs.Told.{told};
ghost use Rattle.sheet.specs.Running.{figures, figures_of};

use super::reports::Report;
use bench::read_out;
use denials::Denial;
use loggers::Logger;
use plans::Way;

// Runs the plan of this name, made for so many questions, with as many on the logger.
pub(crate) fn run_plan<L: Logger>(logger: &L, way: Way, questions: u32) -> Result<Report, Denial>
    ensures { Decided told (budget_denied (L.Logger.extent logger.now) questions) result (λ r. figures r ≡ figures_of way (L.Logger.table logger.now) (L.Logger.extent logger.now) questions) (Unit {0}) }
{
    let mut plan = way.plan(questions)?;
    let (ran, _) = read_out(logger, &mut plan, questions)?;
    // asked for the proof alone: a last value of 32 bits bounds the limits to 16 digits
    let _last = logger.last();
    Ok(Report {
        way,
        span: logger.span(),
        asked: ran.asked,
        low: ran.low,
        high: ran.high,
    })
}

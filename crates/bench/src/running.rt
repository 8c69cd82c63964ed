// The run of a plan on a logger. The plan is lent, so each call says that it means the same afterwards:
// one clause is plainer than a type that every caller would have to wrap its plan in.
ghost use Rattle.std.specs.Prelude.{◌≡◌};
ghost use Rattle.denials.specs.Checks.{Decided};
ghost use Rattle.denials.specs.Told.{told};
ghost use Rattle.bench.specs.Runs.{run_denied, budget_denied, RanOn};
ghost use Rattle.readout.specs.Views.{view};

use super::asking::ask_all;
use super::lines::{Line, Watch};
use denials::Denial;
use loggers::Logger;
use plans::Plan;
use readout::{Readout, Summary};

// What an accepted run gives: how many questions it asked, and the limits. Users read all three by name.
#[derive(Clone, Copy)]
pub struct Ran {
    pub asked: u32,
    pub low: u64,
    pub high: u64,
}

// Runs the plan on the logger with a budget of questions, through the readout in `place`.
// The line is awake while questions are asked; on every way out it sleeps, unless it was awake at the start.
pub fn run<L: Logger, P: Plan>(
    logger: &L,
    plan: &mut P,
    budget: u32,
    mark: u16,
    line: &mut Line,
    place: &mut Readout,
) -> Result<Ran, Denial>
    ensures decided { Decided told (run_denied line.old.awake (L.Logger.extent logger.now) budget) result (RanOn (P.Plan.asks plan.old) (L.Logger.table logger.now) (L.Logger.extent logger.now) budget mark (view place.new)) (place.new ≡ place.old) }
    ensures line { line.new ≡ line.old }
    ensures plan { P.Plan.asks plan.new ≡ P.Plan.asks plan.old }
{
    if line.awake {
        return Err(Denial::LineAwake);
    }
    let watch = Watch { line };
    place.open(logger.span(), logger.first(), logger.last(), budget, mark)?;
    watch.line.awake = true;
    ask_all(logger, plan, place);
    let Summary { low, high, answers } = place.limits();
    Ok(Ran {
        asked: answers,
        low,
        high,
    })
}

// Runs a plan on a logger with so many questions, over a line and a place of its own:
// what the run gives, and the readout that it leaves.
pub fn read_out<L: Logger, P: Plan>(
    logger: &L,
    plan: &mut P,
    questions: u32,
) -> Result<(Ran, Readout), Denial>
    ensures decided { Decided told (budget_denied (L.Logger.extent logger.now) questions) result (λ r. RanOn (P.Plan.asks plan.old) (L.Logger.table logger.now) (L.Logger.extent logger.now) questions 0 (view r.1) r.0) (Unit {0}) }
    ensures plan { P.Plan.asks plan.new ≡ P.Plan.asks plan.old }
{
    let mut line = Line::asleep();
    let mut place = Readout::new();
    let ran = run(logger, plan, questions, 0, &mut line, &mut place)?;
    Ok((ran, place))
}

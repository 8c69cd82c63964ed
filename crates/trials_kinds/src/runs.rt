// Runs of both plans on a logger of any kind.
ghost use Rattle.std.specs.Prelude.{◌≡◌, [], ◌∷◌};
ghost use Rattle.bench.specs.Runs.{budget_denied};
ghost use Rattle.denials.specs.Checks.{Decided};
ghost use Rattle.denials.specs.Told.{told};
ghost use Rattle.trials_kinds.specs.Runs.{FoundOn, BothOn, sums};

use bench::read_out;
use denials::Denial;
use loggers::Logger;
use logs::Limits;
use plans::{EqualSpacing, Plan, WidestRectangle};

// What a run found: how many questions it asked, the limits of the sum and those of the total of levels.
#[derive(Clone, Copy)]
pub struct Found {
    pub asked: u32,
    pub sum: Limits,
    pub levels: Limits,
}

// What both plans found.
#[derive(Clone, Copy)]
pub struct Both {
    pub spacing: Found,
    pub widest: Found,
}

impl Both {
    // The number asked, low and high, of equal spacing and then of the widest rectangle.
    pub fn sums(&self) -> [[u64; 3]; 2]
        ensures { result ≡ sums self.now.spacing ∷ sums self.now.widest ∷ [] }
    {
        let spacing = self.spacing;
        let widest = self.widest;
        [
            [spacing.asked as u64, spacing.sum.low, spacing.sum.high],
            [widest.asked as u64, widest.sum.low, widest.sum.high],
        ]
    }
}

// Runs equal spacing, made for so many questions, and the widest rectangle, each with so many questions.
pub fn run_both<L: Logger>(logger: &L, questions: u32) -> Result<Both, Denial>
    ensures { Decided told (budget_denied (L.Logger.extent logger.now) questions) result (BothOn (L.Logger.table logger.now) (L.Logger.extent logger.now) questions) (Unit {0}) }
{
    let spacing = run_plan(logger, EqualSpacing::new(questions)?, questions)?;
    let widest = run_plan(logger, WidestRectangle::new(), questions)?;
    Ok(Both { spacing, widest })
}

// Runs the plan with so many questions.
pub fn run_plan<L: Logger, P: Plan + Drop>(
    logger: &L,
    mut plan: P,
    questions: u32,
) -> Result<Found, Denial>
    ensures { Decided told (budget_denied (L.Logger.extent logger.now) questions) result (FoundOn (P.Plan.asks plan) (L.Logger.table logger.now) (L.Logger.extent logger.now) questions) (Unit {0}) }
{
    let (ran, place) = read_out(logger, &mut plan, questions)?;
    Ok(Found {
        asked: ran.asked,
        sum: place.log().limits(),
        levels: place.total_of_levels(),
    })
}

// What the lines of a sheet do to the logger that is set.
ghost use Rattle.std.specs.Prelude.{◌≡◌};
ghost use Rattle.jobs.specs.Said.{said};
ghost use Rattle.sheet.specs.Leading.{leads};
ghost use Rattle.sheet.specs.Replying.{replied};
ghost use Rattle.sheet.specs.Setting.{held};

use super::reports::Report;
use super::running::run_plan;
use denials::Denial;
use jobs::{Job, Values};
use loggers::{Chosen, Diagonal, KeptTable};

// Does what a line asks for: sets a logger, or runs a plan on the one that is set. A denied line leaves it.
pub(crate) fn enter(
    set: &mut Option<Chosen<Values>>,
    job: Option<Job>,
    line: u64,
) -> Result<Option<Report>, Denial>
    ensures held { held set.new ≡ (leads (held set.old) (said job)).0 }
    ensures reply { replied result ≡ (leads (held set.old) (said job)).1 }
{
    match job.ok_or(Denial::Form(line))? {
        Job::Diagonal(span, rise) => *set = Some(Chosen::Diagonal(Diagonal::new(span, rise)?)),
        Job::Table(values) => *set = Some(Chosen::Table(KeptTable::new(values)?)),
        Job::Run(way, questions) => {
            let logger = set.as_ref().ok_or(Denial::Form(line))?;
            return run_plan(logger, way, questions).map(Some);
        }
    }
    Ok(None)
}

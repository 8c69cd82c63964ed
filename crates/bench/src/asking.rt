// The questions of a run, one after the other.
ghost use Rattle.std.specs.Prelude.{◌≡◌};
ghost use Rattle.bench.specs.Runs.{Ready, asked, Started, Completed};
ghost use Rattle.readout.specs.Views.{view};

use loggers::Logger;
use plans::Plan;
use readout::Readout;

// Asks one question: takes its ticket, asks the logger, and answers. None of the three can fail here.
pub(crate) fn ask_one<L: Logger>(logger: &L, place: &mut Readout, x: u32)
    requires { Ready (L.Logger.table logger.now) (L.Logger.extent logger.now) (view place.old) x }
    ensures { view place.new ≡ asked (view place.old) x (L.Logger.table logger.now x) }
{
    let ticket = place.take(x).unwrap();
    let value = logger.count(x).unwrap();
    place.answer(ticket, value).unwrap();
}

// Asks while questions are left, each the plan's answer for the log so far. The plan is lent, so it says that it means the same.
pub(crate) fn ask_all<L: Logger, P: Plan>(logger: &L, plan: &mut P, place: &mut Readout)
    requires { Started (L.Logger.table logger.now) (L.Logger.extent logger.now) (view place.old) }
    ensures same { P.Plan.asks plan.new ≡ P.Plan.asks plan.old }
    ensures ran { Completed (P.Plan.asks plan.old) (L.Logger.table logger.now) (view place.old) (view place.new) }
{
    while place.left() > 0 {
        let Some(x) = plan.next(place.log()) else {
            return;
        };
        ask_one(logger, place, x);
    }
}

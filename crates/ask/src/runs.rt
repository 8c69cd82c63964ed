// A run of a plan on a logger, and the report of it.
ghost use Rattle.std.specs.Prelude.{◌≡◌, ◌≤◌, length, map};
ghost use Rattle.denials.specs.Checks.{Decided};
ghost use Rattle.denials.specs.Told.{told};
ghost use Rattle.bench.specs.Runs.{budget_denied};
ghost use Rattle.plans.specs.Ways.{plan_of};
ghost use Rattle.ask.specs.Reporting.{answer_at, Reported};

use super::answers::Answer;
use super::notes::Noting;
use arrayvec::ArrayVec;
use bench::read_out;
use denials::Denial;
use loggers::Logger;
use logs::Limits;
use plans::Way;

// What a run came to: its questions in their order with the logger's counts, how many they are, the limits of the sum,
// and the width that no plan with as many questions undercuts on every table between the same ends.
#[derive(Clone, Drop)]
pub struct Report {
    pub answers: ArrayVec<Answer, 254>,
    // counted by the run: its contract says nothing of the row that the plan kept
    pub asked: u32,
    pub limits: Limits,
    pub promise: u64,
}

// Runs the plan of this name, made for so many questions, with so many questions on the logger, and notes what it asks.
pub fn run_on<L: Logger>(logger: &L, way: Way, questions: u32) -> Result<Report, Denial>
    ensures { Decided told (budget_denied (L.Logger.extent logger.now) questions) result (Reported (plan_of way questions) (L.Logger.table logger.now) (L.Logger.extent logger.now) questions) (Unit {0}) }
{
    let mut noting = Noting::new(way.plan(questions)?);
    let (ran, place) = read_out(logger, &mut noting, questions)?;
    Ok(Report {
        answers: answers_at(logger, noting.questions.as_slice()),
        asked: ran.asked,
        limits: place.log().limits(),
        promise: place.log().promise(),
    })
}

// What the logger counts at each of these questions: a loop, since `extend` gives a Result where there is room for all.
fn answers_at<L: Logger>(logger: &L, questions: &[u32]) -> ArrayVec<Answer, 254>
    requires { length questions.now ≤ 254 }
    ensures { result.items ≡ map (answer_at (L.Logger.table logger.now) (L.Logger.extent logger.now)) questions.now }
{
    let mut answers = ArrayVec::new();
    for at in questions {
        answers.push(Answer {
            at: *at,
            count: logger.count(*at),
        });
    }
    answers
}

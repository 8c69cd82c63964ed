// A plan that notes what it asks.
ghost use Rattle.std.specs.Prelude.{◌≡◌, ◌<◌, [], ◌++◌, length};
ghost use Rattle.logs.specs.Points.{points};
ghost use Rattle.std.specs.Option.{option_to_list};

use arrayvec::ArrayVec;
use logs::Log;
use plans::Plan;

// A plan, with the questions that it has asked: there is room for as many as a run may ask.
#[derive(Drop)]
pub struct Noting<P> {
    plan: P,
    pub questions: ArrayVec<u32, 254>,
}

impl<P: Plan> Noting<P> {
    // The plan before its first question.
    pub fn new(plan: P) -> Noting<P>
        ensures plan { result.plan ≡ plan }
        ensures none { result.questions.items ≡ [] }
    {
        Noting {
            plan,
            questions: ArrayVec::new(),
        }
    }
}

// It means what the plan inside means, and each call adds its answer to the questions.
impl<P: Plan> Plan for Noting<P> {
    ghost asks = { λ n. P.Plan.asks n.plan };

    ghost lawful = { λ n. P.Plan.lawful n.plan };

    fn next(&mut self, log: &Log) -> Option<u32>
        ensures answer { result ≡ P.Plan.asks self.old.plan (points log.now) }
        ensures same { P.Plan.asks self.new.plan ≡ P.Plan.asks self.old.plan }
        ensures notes { length self.old.questions.items < 254 → self.new.questions.items ≡ self.old.questions.items ++ option_to_list result }
    {
        let answer = self.plan.next(log);
        if let Some(at) = answer {
            // there is room: a run asks at most 254
            let _ = self.questions.try_push(at);
        }
        answer
    }
}

// Equal spacing: asks the arguments that cut the span into even parts.
ghost use Rattle.std.specs.Prelude.{◌≡◌, ◌≤◌, [], ◌∷◌, drop, length, nat_lt};
ghost use Rattle.denials.specs.Checks.{Decided, first};
ghost use Rattle.denials.specs.Told.{told};
ghost use Rattle.logs.specs.Points.{points};
ghost use Rattle.tables.proofs.Spacing.{spacing_is_lawful};
ghost use Rattle.tables.specs.Log.{span_of};
ghost use Rattle.tables.specs.Plan.{first_unknown, stops, equal_spacing};
ghost use Rattle.plans.specs.Ahead.{Rises, ahead, begins_at};
ghost use Rattle.plans.specs.Meanings.{spacing_of};

use super::asking::Plan;
use super::fallback::lowest_unknown;
use denials::Denial;
use logs::Log;
use tables::Point;

#[derive(Clone, Copy)]
pub struct EqualSpacing {
    questions: u32,
}

impl EqualSpacing {
    // The plan for 0 to 254 questions.
    pub fn new(questions: u32) -> Result<EqualSpacing, Denial>
        ensures { Decided told (first ((nat_lt 254 questions, (3, [])) ∷ [])) result (λ p. spacing_of p ≡ equal_spacing questions) (Unit {0}) }
    {
        if questions > 254 {
            return Err(Denial::Budget);
        }
        Ok(EqualSpacing { questions })
    }
}

impl Plan for EqualSpacing {
    ghost asks = { spacing_of };

    ghost lawful = { λ p. spacing_is_lawful p.questions };

    fn next(&mut self, log: &Log) -> Option<u32> {
        first_stop(log, self.questions).or_else(|| lowest_unknown(log))
    }
}

// The first unknown of the arguments that cut the span into one part more than there are questions.
// Stops and points both rise, so they are gone through side by side.
#[tactic(auto, using(crate::proofs::Cuts::all_stops, crate::proofs::Cuts::stop_none, crate::proofs::Cuts::stop_passed, crate::proofs::Cuts::stop_later, crate::proofs::Ahead::stop_unknown, crate::proofs::Ahead::ahead_later, crate::proofs::Ahead::log_rises, crate::proofs::Ahead::left_rises))]
fn first_stop(log: &Log, questions: u32) -> Option<u32>
    ensures { result ≡ first_unknown (points log.now) (stops (span_of (points log.now)) questions) }
{
    let span = u64::from(log.span());
    let parts = u64::from(questions) + 1;
    let mut left = log.points();
    for j in 1..parts {
        let at = (j * span / parts) as u32;
        left = not_below(left, at);
        if !begins_at(left, at) {
            return Some(at);
        }
    }
    None
}

// The points from the first on that is not below the argument.
// In a run of the plan it is mostly the second, and only one further on is searched for.
fn not_below(points: &[Point], at: u32) -> &[Point]
    requires { Rises points.now }
    ensures { result.now ≡ ahead at points.now }
{
    match points {
        [p, q, ..] if q.at >= at => { if p.at >= at { points } else { &points[1..] } }
        _ => &points[first_not_below(points, at)..],
    }
}

// The place of the first point that is not below the argument.
fn first_not_below(points: &[Point], at: u32) -> usize
    requires { Rises points.now }
    ensures within { result ≤ length points.now }
    ensures ahead { drop result points.now ≡ ahead at points.now }
{
    points.partition_point(|p| p.at < at)
}

// Whether the first of the points is at the argument.
fn begins_at(points: &[Point], at: u32) -> bool
    ensures { result ≡ begins_at at points.now }
{
    points.first().is_some_and(|p| p.at == at)
}

// The widest rectangle: asks in the middle of the widest gap.
ghost use Rattle.std.specs.Prelude.{◌≡◌};
ghost use Rattle.logs.specs.Points.{points};
ghost use Rattle.plans.specs.Gaps.{gaps};
ghost use Rattle.plans.specs.Lawful.{widest_is_lawful};
ghost use Rattle.plans.specs.Widest.{wider, widest, widest_rectangle, WidestIsWidest};

use super::asking::Plan;
use super::fallback::lowest_unknown;
use super::gaps::Gap;
use logs::Log;

#[derive(Clone, Copy)]
pub struct WidestRectangle;

impl WidestRectangle {
    // The plan. Of every log, the gap that it takes for the widest is the widest.
    pub fn new() -> WidestRectangle
        ensures { WidestIsWidest }
    {
        WidestRectangle
    }
}

impl Plan for WidestRectangle {
    ghost asks = { λ _. widest_rectangle };

    ghost lawful = { λ _. widest_is_lawful };

    fn next(&mut self, log: &Log) -> Option<u32> {
        widest_of(log)
            .map(|gap| gap.middle())
            .or_else(|| lowest_unknown(log))
    }
}

// The widest gap between neighbouring points, the lowest on a tie; none where every gap has width 0.
fn widest_of(log: &Log) -> Option<Gap>
    ensures { result ≡ widest (gaps (points log.now)) }
{
    log.points()
        .array_windows::<2>()
        .fold(None, |best, &[from, to]| wider(best, Gap { from, to }))
}

// The gap if it is wider than the best so far, else the best so far.
fn wider(best: Option<Gap>, gap: Gap) -> Option<Gap>
    ensures { result ≡ wider best gap }
{
    let width = best.map_or(0, |widest| widest.width());
    if gap.width() > width { Some(gap) } else { best }
}

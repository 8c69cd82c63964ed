// A look at a readout, to be held against another.
ghost use Rattle.std.specs.Prelude.{◌≡◌, ◌+◌, map, Ok, Err, Decides, ◌==◌};
ghost use Rattle.denials.specs.Told.{told};
ghost use Rattle.readout.specs.Out.{tickets};
ghost use Rattle.readout.specs.Views.{view};
ghost use Rattle.trials.specs.Looks.{point_of, seen};

use denials::Denial;
use readout::Readout;
use tables::Point;

// What a readout shows besides its points.
#[derive(Clone, Copy, PartialEq, Eq, Debug)]
pub struct Look {
    pub low: u64,
    pub high: u64,
    pub answers: u32,
    pub left: u32,
    pub mark: u16,
    pub waiting: Option<u32>,
}

// What the readout shows now.
pub fn look_at(place: &Readout) -> Look
    ensures { result ≡ seen (view place.now) }
{
    let limits = place.limits();
    Look {
        low: limits.low,
        high: limits.high,
        answers: limits.answers,
        left: place.left(),
        mark: place.mark(),
        waiting: place.waiting(),
    }
}

// The number of the denial, or 0 where the call was accepted: tests compare numbers, as users know them.
pub fn number<T: Drop>(res: Result<T, Denial>) -> u8
    ensures { result ≡ elim res [ Ok _ ↦ 0 | Err d ↦ (told d).0 ] }
{
    res.err().map_or(0, |denial| denial.number())
}

// Whether the answers, the questions left and the ticket out make up the budget.
pub fn adds_up(look: Look, budget: u32) -> bool
    ensures { result ≡ (look.answers + look.left + tickets look.waiting == budget) }
{
    let out = u64::from(look.waiting.is_some());
    u64::from(look.answers) + u64::from(look.left) + out == u64::from(budget)
}

// Whether the points are those of the pairs, each an argument with its value.
pub fn same_points(points: &[Point], pairs: &[(u32, u32)]) -> bool
    ensures { Decides result (points.now ≡ map point_of pairs.now) }
{
    if points.len() != pairs.len() {
        return false;
    }
    for (p, &(at, value)) in points.iter().zip(pairs) {
        if *p != (Point { at, value }) {
            return false;
        }
    }
    true
}

// What a log tells.
ghost use Rattle.std.specs.Prelude.{◌≡◌, ◌-◌, ◌≤◌, length};
ghost use Rattle.tables.specs.Log.{span_of, first_value, last_value, has};
ghost use Rattle.logs.specs.Points.{points};

use super::logs::Log;
use tables::Point;

impl Log {
    // The points, in the order of their arguments.
    pub fn points(&self) -> &[Point]
        ensures { result.now ≡ points self.now }
    {
        self.places.shown()
    }

    // The last argument.
    pub fn span(&self) -> u32
        ensures { result ≡ span_of (points self.now) }
    {
        self.ends().1.at
    }

    // The value at argument 0.
    pub fn first(&self) -> u32
        ensures { result ≡ first_value (points self.now) }
    {
        self.ends().0.value
    }

    // The value at the last argument.
    pub fn last(&self) -> u32
        ensures { result ≡ last_value (points self.now) }
    {
        self.ends().1.value
    }

    // Whether the argument is that of a point.
    pub fn has(&self, at: u32) -> bool
        ensures { result ≡ has at (points self.now) }
    {
        self.points()[self.place_of(at) - 1].at == at
    }

    // How many points lie between the ends: the answers that the log rests on.
    pub fn answers(&self) -> usize
        ensures { result ≡ length (points self.now) - 2 }
    {
        self.points().len().saturating_sub(2)
    }

    // The first point and the last.
    pub(crate) fn ends(&self) -> (Point, Point)
        ensures span { result.1.at ≡ span_of (points self.now) }
        ensures first { result.0.value ≡ first_value (points self.now) }
        ensures last { result.1.value ≡ last_value (points self.now) }
        ensures rises { result.0.value ≤ result.1.value }
    {
        let points = self.points();
        (points[0], points[points.len() - 1])
    }
}

// The memory of a log: a fixed row of points, of which the first `used` count.
ghost use Rattle.std.specs.Prelude.{◌≡◌, ◌+◌, ◌<◌, ◌≤◌, [], ◌∷◌};
ghost use Rattle.std.specs.List.{insert};
ghost use Rattle.logs.specs.Held.{held};

use tables::Point;

// A fixed array with its count beside it, since the library takes no memory from a heap.
#[derive(Drop)]
pub(crate) struct Places {
    pub(crate) points: [Point; 256],
    pub(crate) used: usize,
}

impl Places {
    // Two points, and room for 254 more.
    pub(crate) fn new(first: Point, last: Point) -> Places
        ensures { (held result ≡ first ∷ last ∷ []) × (result.used ≡ 2) }
    {
        let zero = Point { at: 0, value: 0 };
        let mut points = [zero; 256];
        points[0] = first;
        points[1] = last;
        Places { points, used: 2 }
    }

    // Starts again with two points.
    pub(crate) fn restart(&mut self, first: Point, last: Point)
        ensures { (held self.new ≡ first ∷ last ∷ []) × (self.new.used ≡ 2) }
    {
        self.points[0] = first;
        self.points[1] = last;
        self.used = 2;
    }

    // The points in use.
    pub(crate) fn shown(&self) -> &[Point]
        requires { self.now.used ≤ 256 }
        ensures { result.now ≡ held self.now }
    {
        &self.points[..self.used]
    }

    // Puts a point at place i, and moves those from there on by one.
    pub(crate) fn put(&mut self, i: usize, p: Point)
        requires room { self.old.used < 256 }
        requires within { i ≤ self.old.used }
        ensures { (held self.new ≡ insert (held self.old) i p) × (self.new.used ≡ self.old.used + 1) }
    {
        self.points.copy_within(i..self.used, i + 1);
        self.points[i] = p;
        self.used += 1;
    }
}

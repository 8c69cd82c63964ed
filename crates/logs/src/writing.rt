// How a log comes about: from its ends, and by one point more.
ghost use Rattle.std.specs.Prelude.{◌≡◌};
ghost use Rattle.denials.specs.Checks.{Decided};
ghost use Rattle.tables.specs.Log.{fresh, insert};
ghost use Rattle.logs.specs.Fits.{bad_ends, misfit};
ghost use Rattle.logs.specs.Points.{points};

use super::logs::Log;
use super::misfits::{BadEnds, Misfit};
use super::places::Places;
use tables::Point;

impl Log {
    // The log of a new place: span 1 and values 0.
    pub fn new() -> Log
        ensures { points result ≡ fresh 1 0 0 }
    {
        Log {
            places: Places::new(Point { at: 0, value: 0 }, Point { at: 1, value: 0 }),
        }
    }

    // Starts again, with only the ends known.
    pub fn restart(&mut self, span: u32, first: u32, last: u32) -> Result<(), BadEnds>
        ensures { Decided (λ e. e) (bad_ends span first last) result (λ _. points self.new ≡ fresh span first last) (self.new ≡ self.old) }
    {
        if span == 0 || span > 1_000_000 {
            return Err(BadEnds::Span);
        }
        if first > last {
            return Err(BadEnds::Order);
        }
        self.places.restart(
            Point {
                at: 0,
                value: first,
            },
            Point {
                at: span,
                value: last,
            },
        );
        Ok(())
    }

    // Takes in one point more.
    pub fn insert(&mut self, p: Point) -> Result<(), Misfit>
        ensures { Decided (λ e. e) (misfit (points self.old) p) result (λ _. points self.new ≡ insert p (points self.old)) (self.new ≡ self.old) }
    {
        let i = self.fit(p)?;
        self.places.put(i, p);
        Ok(())
    }
}

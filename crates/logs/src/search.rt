// Where an argument belongs in a log.
ghost use Rattle.std.specs.Prelude.{◌≡◌, IfOk};
ghost use Rattle.denials.specs.Checks.{Decided};
ghost use Rattle.logs.specs.Fits.{place, misfit, Beside, Goes};
ghost use Rattle.logs.specs.Points.{points};

use super::logs::Log;
use super::misfits::Misfit;
use tables::Point;

impl Log {
    // How many points lie at or before the argument.
    pub(crate) fn place_of(&self, at: u32) -> usize
        ensures place { result ≡ place at (points self.now) }
        ensures beside { Beside (points self.now) at result }
    {
        self.points().partition_point(|p| p.at <= at)
    }

    // The place at which a point goes into the log, or why it does not.
    pub(crate) fn fit(&self, p: Point) -> Result<usize, Misfit>
        ensures refused { Decided (λ m. m) (misfit (points self.now) p) result (λ _. Unit {0}) (Unit {0}) }
        ensures goes { IfOk result (Goes (points self.now) p) }
    {
        if p.at == 0 || p.at >= self.span() {
            return Err(Misfit::NotInner);
        }
        let points = self.points();
        let i = self.place_of(p.at);
        let before = points[i - 1];
        if before.at == p.at {
            return Err(Misfit::Known);
        }
        if points.len() >= 256 {
            return Err(Misfit::Full);
        }
        if p.value < before.value || p.value > points[i].value {
            return Err(Misfit::OutOfOrder);
        }
        Ok(i)
    }
}

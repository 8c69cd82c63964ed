// The limits of a log's sum, and what no plan undercuts.
ghost use Rattle.std.specs.Prelude.{◌≡◌, ◌-◌, length};
ghost use Rattle.tables.specs.Log.{span_of, first_value, last_value, SharpLimits};
ghost use Rattle.tables.specs.Theorems.{promise};
ghost use Rattle.logs.specs.Points.{points};

use super::limits::Limits;
use super::logs::Log;
use tables::least_width;

impl Log {
    // The limits of the sum of every table that agrees with the log, by the formula and sharp.
    pub fn limits(&self) -> Limits
        ensures { SharpLimits (points self.now) result.low result.high }
    {
        let mut low = 0;
        let mut high = 0;
        // one loop for both limits, since a fold would carry a pair:
        // inside a gap, the low limit has the value before it throughout, the high one that after it
        for &[p, q] in self.points().array_windows::<2>() {
            let inner = u64::from(q.at - p.at - 1);
            let (before, after) = (u64::from(p.value), u64::from(q.value));
            low += before + inner * before;
            high += before + inner * after;
        }
        let top = u64::from(self.last());
        Limits {
            low: low + top,
            high: high + top,
        }
    }

    // The width that no plan with as many answers undercuts on every table between the same ends:
    // the steepest even rise over the span, times the least width that as many answers can leave.
    pub fn promise(&self) -> u64
        ensures { result ≡ promise (span_of (points self.now)) (first_value (points self.now)) (last_value (points self.now)) (length (points self.now) - 2) }
    {
        let (first, last) = self.ends();
        let steepest = (last.value - first.value) / last.at;
        u64::from(steepest) * least_width(last.at, self.answers() as u32)
    }
}

// The mean of the readings that a readout counts, in the readings' own unit.
ghost use Rattle.std.specs.Prelude.{◌≡◌, ◌^◌, ◌<◌, pos, ◌-ℤ◌, MatchOption};
ghost use Rattle.readout.specs.Views.{view};
ghost use Rattle.tables.specs.Log.{last_value};
ghost use Rattle.certificates.specs.Means.{mean_of, SharpMean};

use counters::OwnUnit;
use readout::Readout;

// The mean lies from `low` to `high`, by so many answered questions.
#[derive(Clone, Copy, PartialEq, Eq, Debug)]
pub struct Mean {
    pub low: i64,
    pub high: i64,
    pub questions: u32,
}

// The limits of the mean, rounded outward to whole units; none where no reading is counted.
pub fn mean_of_levels<T: OwnUnit>(readout: &Readout) -> Option<Mean>
    ensures is { result ≡ mean_of T.OwnUnit.zero (view readout.now).points }
    ensures sharp { MatchOption result (last_value (view readout.now).points ≡ 0) (SharpMean T.OwnUnit.zero (view readout.now).points) }
{
    let counted = u64::from(readout.log().last());
    if counted == 0 {
        return None;
    }
    let total = readout.total_of_levels();
    let zero = T::zero_level();
    Some(Mean {
        low: own_unit(total.low / counted, zero),
        high: own_unit(total.high.div_ceil(counted), zero),
        questions: readout.log().answers() as u32,
    })
}

// A level moved back into the reading's own unit.
fn own_unit(level: u64, zero: u32) -> i64
    requires { level < 2 ^ 63 }
    ensures { result ≡ pos level -ℤ pos zero }
{
    level as i64 - i64::from(zero)
}

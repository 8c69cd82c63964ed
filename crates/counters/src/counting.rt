// Counting the readings up to a level.
ghost use Rattle.std.specs.Prelude.{◌≡◌, ◌≤◌, length};
ghost use Rattle.counters.specs.Counting.{counter_table};

use crate::levels::Level;

// How many of these readings have a level of at most x. One loop over a lent slice with a running count: the project fixes this form.
pub(crate) fn count_up_to<T: Level>(readings: &[T], x: u32) -> usize
    ensures counted { result ≡ counter_table T.Level.height readings.now x }
    ensures within { result ≤ length readings.now }
{
    let mut count = 0;
    for reading in readings {
        if reading.level() <= x {
            count += 1;
        }
    }
    count
}

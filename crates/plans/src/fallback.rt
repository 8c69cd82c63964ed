// What every plan here falls back on: the lowest unknown argument.
ghost use Rattle.std.specs.Prelude.{◌≡◌};
ghost use Rattle.logs.specs.Points.{points};
ghost use Rattle.tables.specs.Plan.{lowest_unknown};

use super::gaps::Gap;
use logs::Log;

// The lowest inner argument that is not in the log: the first inside the first gap that has one.
pub fn lowest_unknown(log: &Log) -> Option<u32>
    ensures { result ≡ lowest_unknown (points log.now) }
{
    log.points()
        .array_windows::<2>()
        .find_map(|&[from, to]| Gap { from, to }.first_inside())
}

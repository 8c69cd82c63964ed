// What the counts say of the levels, as the contract of a function.
ghost use Rattle.counters.specs.Totals.{CountedTotal, TotalIsCounted};

use crate::levels::Level;

// The total of the levels of the readings counted follows from the sum of the counter's table;
// where no level is above the span, that is the total of all levels.
pub fn total_is_counted<T: Level>()
    ensures counted { CountedTotal T.Level.height }
    ensures all { TotalIsCounted T.Level.height }
{}

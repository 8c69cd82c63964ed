// Whole numbers with white space around them.
ghost use Rattle.records.specs.Reading.{Reads};

use std::str::FromStr;

// The number that a text writes, of any type that is read from text.
pub fn whole<N: FromStr>(text: &str) -> Option<N>
where
    N::Err: Drop,
    ensures { Reads N.from_str_gives text.now result }
{
    text.trim().parse().ok()
}

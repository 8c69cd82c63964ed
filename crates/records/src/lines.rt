// One line of readings.
ghost use Rattle.std.specs.Prelude.{MatchBool};
ghost use Rattle.records.specs.Lines.{IsBlank, IsFull, HasDigit, NoDigit, SaysLine};

use super::kinds::{Fault, Written};

// What a line holds that has no fault.
#[derive(Drop)]
pub enum Line<T> {
    Blank,
    Header,
    Reading(T),
}

// Reads a line. The first line that is not blank is a header where it has no digit in it.
pub fn read_line<T: Written>(text: &str, first: bool) -> Result<Line<T>, Fault>
    ensures { SaysLine T.Written.says first text.now result }
{
    if is_blank(text) {
        return Ok(Line::Blank);
    }
    if first && !has_digit(text) {
        return Ok(Line::Header);
    }
    Ok(Line::Reading(T::read(text)?))
}

// Whether a line has nothing but white space.
fn is_blank(text: &str) -> bool
    ensures { MatchBool result (IsBlank text.now) (IsFull text.now) }
{
    text.trim().is_empty()
}

// Whether a line has a digit in it.
fn has_digit(text: &str) -> bool
    ensures { MatchBool result (HasDigit text.now) (NoDigit text.now) }
{
    text.as_bytes().iter().any(u8::is_ascii_digit)
}

// One line of input, as numbers.
ghost use Rattle.std.specs.Prelude.{◌≡◌, ◌<◌, length, MatchResult};
ghost use Rattle.limits.specs.Lines.{line_of, Told, NotCount};

use arrayvec::ArrayVec;
use tables::Point;

// What a line holds.
#[derive(Clone, Copy, PartialEq, Eq, Debug)]
pub enum Line {
    Ends { span: u32, first: u32, last: u32 },
    Answer(Point),
}

// Why a line cannot be read.
#[derive(Clone, Copy, PartialEq, Eq, Debug)]
pub enum Fault<'a> {
    // a word that is no whole number up to 4,294,967,295
    NoNumber(&'a str),
    // another count of numbers than a line has
    Count(usize),
}

// Reads a line, which may hold nothing; a word that begins with `#` ends it.
pub fn read_line(text: &str) -> Result<Option<Line>, Fault<'_>>
    ensures { Told result }
{
    let (numbers, more) = numbers(text)?;
    line_of(numbers.as_slice(), more)
}

// The numbers of a line, up to three, and how many more there are: with no heap, so that no line fails for memory.
fn numbers(text: &str) -> Result<(ArrayVec<u32, 3>, usize), Fault<'_>>
    ensures { MatchResult result (λ r. 0 < r.1 → length r.0.items ≡ 3) NotCount }
{
    let words = text
        .split_whitespace()
        .take_while(|word| !word.starts_with('#'));
    let mut numbers: ArrayVec<u32, 3> = ArrayVec::new();
    let mut more = 0usize;
    for word in words {
        let number = word.parse().map_err(|_| Fault::NoNumber(word))?;
        if numbers.try_push(number).is_err() {
            more = more.saturating_add(1);
        }
    }
    Ok((numbers, more))
}

// What these numbers make, if there are any, with so many more after them.
fn line_of<'a>(numbers: &[u32], more: usize) -> Result<Option<Line>, Fault<'a>>
    ensures { result ≡ line_of numbers.now more }
{
    match (numbers, more) {
        ([], 0) => Ok(None),
        (&[at, value], 0) => Ok(Some(Line::Answer(Point { at, value }))),
        (&[span, first, last], 0) => Ok(Some(Line::Ends { span, first, last })),
        _ => Err(Fault::Count(numbers.len().saturating_add(more))),
    }
}

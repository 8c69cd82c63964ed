// A place on a sheet, and the word that stands there.
ghost use Rattle.std.specs.Prelude.{◌≡◌, ◌+◌, ◌-◌, ◌^◌, min, drop};
ghost use Rattle.words.specs.Words.{up_to_gap, lexed};
ghost use Rattle.words.specs.Borrowed.{rest, lexemes};

use crate::lexing::{Word, word_of};

// A place on a sheet; it may lie past the sheet's end.
#[derive(Clone, Copy)]
pub struct Cursor<'a> {
    pub sheet: &'a [u8],
    pub at: usize,
}

impl<'a> Cursor<'a> {
    // What stands from the place on.
    pub fn rest(self) -> &'a [u8]
        ensures { result.now ≡ rest self.entry }
    {
        self.sheet.get(self.at..).unwrap_or(&[])
    }

    // The place so many bytes further on, or the last place that a number can name.
    pub fn skip(self, count: usize) -> Cursor<'a>
        ensures sheet { result.sheet ≡ self.entry.sheet }
        ensures place { result.at ≡ min (self.entry.at + count) (2 ^ 64 - 1) }
        ensures rest { rest result ≡ drop count (rest self.entry) }
    {
        Cursor {
            at: self.at.saturating_add(count),
            ..self
        }
    }

    // The word that begins at the place, or the line's end; none where neither stands there.
    pub fn word(self) -> Option<Word<'a>>
        ensures { lexemes result ≡ lexed (rest self.entry) self.entry.at }
    {
        let rest = self.rest();
        match rest {
            [] => Some(Word::LineEnd(rest, self.at)),
            [b'\n', ..] => Some(Word::LineEnd(&rest[..1], self.at)),
            _ => word_of(up_to_gap(rest), self.at),
        }
    }
}

// The bytes before the first space or line end.
fn up_to_gap(rest: &[u8]) -> &[u8]
    ensures { result.now ≡ up_to_gap rest.now }
{
    let gap = rest.iter().position(|b| matches!(b, b' ' | b'\n'));
    &rest[..gap.unwrap_or(rest.len())]
}

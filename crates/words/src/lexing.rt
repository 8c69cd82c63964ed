// The words of a sheet, each a part of the sheet with its place.
ghost use Rattle.std.specs.Prelude.{◌≡◌};
ghost use Rattle.words.specs.Words.{word_of, bytes_of, place_of, WordsAreParts, WordsAreOfTheirKind};
ghost use Rattle.words.specs.Borrowed.{lexeme, lexemes};

use crate::numbers::number_of;

// A word of a sheet: its bytes, as a part of the sheet, and its place. Each case borrows its part of the sheet:
// the project fixes this form.
#[derive(Clone, Copy)]
pub enum Word<'a> {
    Letter(&'a [u8], usize),
    Number(&'a [u8], usize),
    LineEnd(&'a [u8], usize),
}

impl<'a> Word<'a> {
    // The bytes of the word.
    pub fn bytes(self) -> &'a [u8]
        ensures { result.now ≡ bytes_of (lexeme self.entry) }
    {
        match self {
            Word::Letter(bytes, _) | Word::Number(bytes, _) | Word::LineEnd(bytes, _) => bytes,
        }
    }

    // The place of the word on its sheet.
    pub fn place(self) -> usize
        ensures { result ≡ place_of (lexeme self.entry) }
    {
        match self {
            Word::Letter(_, at) | Word::Number(_, at) | Word::LineEnd(_, at) => at,
        }
    }
}

// A word stands where it was looked for, its bytes are the sheet's bytes there, and they are of its kind.
pub fn words_are_parts()
    ensures parts { WordsAreParts }
    ensures kinds { WordsAreOfTheirKind }
{}

// The word that these bytes are.
pub(crate) fn word_of<'a>(bytes: &'a [u8], at: usize) -> Option<Word<'a>>
    ensures { lexemes result ≡ word_of bytes.now at }
{
    match bytes {
        [b'a'..=b'z'] => Some(Word::Letter(bytes, at)),
        _ => number_of(bytes).map(|_| Word::Number(bytes, at)),
    }
}

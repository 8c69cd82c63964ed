// Reading what a line asks for, word by word.
ghost use Rattle.std.specs.Prelude.{◌≡◌, length, drop, IfSome};
ghost use Rattle.std.specs.Option.{option_map};
ghost use Rattle.words.specs.Borrowed.{rest};
ghost use Rattle.words.specs.Words.{up_to_gap};
ghost use Rattle.jobs.specs.Jobs.{formed, job_of, numbers_of};
ghost use Rattle.jobs.specs.Lines.{line_of};
ghost use Rattle.jobs.specs.Reading.{letter_in, number_in, tail_words, ReadAs};
ghost use Rattle.jobs.specs.Said.{said};
ghost use Rattle.jobs.specs.Values.{listed};

use super::jobs::Job;
use super::values::Values;
use plans::Way;
use words::{Cursor, Word, number_of};

// What the line that begins at a place asks for; none where it is of another form.
pub fn job_at(cursor: Cursor) -> Option<Job>
    ensures { said result ≡ job_of (line_of (rest cursor.entry)) }
{
    let letter = letter_at(cursor)?;
    let values = numbers_from(cursor.skip(1))?;
    form(letter, values)
}

// The letter that stands at a place as a word.
fn letter_at(cursor: Cursor) -> Option<u8>
    ensures { result ≡ letter_in (rest cursor.entry) }
{
    let Word::Letter(word, _) = cursor.word()? else {
        return None;
    };
    word.first().copied()
}

// The number that stands at a place as a word, and the place after it.
fn number_at(cursor: Cursor<'_>) -> Option<(u32, Cursor<'_>)>
    ensures number { option_map (λ p. p.0) result ≡ number_in (rest cursor.entry) }
    ensures after { IfSome result (λ p. rest p.1 ≡ drop (length (up_to_gap (rest cursor.entry))) (rest cursor.entry)) }
{
    let Word::Number(bytes, _) = cursor.word()? else {
        return None;
    };
    Some((number_of(bytes)?, cursor.skip(bytes.len())))
}

// The numbers from a place on, each after one space, to the line's end;
// none where another word stands among them, or they are more than 64.
fn numbers_from(start: Cursor) -> Option<Values>
    ensures { ReadAs (numbers_of (tail_words (rest start.entry))) result }
{
    let mut values = Values::none();
    let mut cursor = start;
    while let [b' ', ..] = cursor.rest() {
        let (n, after) = number_at(cursor.skip(1))?;
        if !values.put(n) {
            return None;
        }
        cursor = after;
    }
    Some(values)
}

// What a letter and the numbers after it ask for.
fn form(letter: u8, values: Values) -> Option<Job>
    ensures { said result ≡ formed letter (listed values) }
{
    match (letter, values.as_slice()) {
        (b'd', [span, rise]) => Some(Job::Diagonal(*span, *rise)),
        (b't', [_, ..]) => Some(Job::Table(values)),
        (b'e', [questions]) => Some(Job::Run(Way::EqualSpacing, *questions)),
        (b'w', [questions]) => Some(Job::Run(Way::WidestRectangle, *questions)),
        _ => None,
    }
}

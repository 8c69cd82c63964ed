// A line of text read.
ghost use Rattle.std.specs.Prelude.{◌≡◌, MatchResult};
ghost use Rattle.std.specs.List.{position};
ghost use Rattle.ask.specs.Reading.{Says, line_of, diagonal_of, run_of};
ghost use Rattle.ask.specs.Words.{is_remark, said_words, IsNumber, number_of, SayNumbers, TellsFirstUnclear, IfRead, ReadsWords, Reads};

use super::kinds::Kind;
use super::lines::{Fault, Line, Unread};
use plans::Way;
use std::alloc::Global;

// Reads a line, or nothing where it is blank; a word that begins with `#` ends it.
pub fn read_line(heap: Global, text: &str) -> Result<Option<Line>, Unread<'_>>
    ensures { IfRead result (Reads text.now) }
{
    let words: Vec<&str> = text.split_whitespace().collect(heap)?;
    read_words(heap, before_remark(&words))
}

// The words before the first that begins with `#`.
fn before_remark<'w, 'a>(words: &'w [&'a str]) -> &'w [&'a str]
    ensures { result.now ≡ said_words words.now }
{
    &words[..first_remark(words).unwrap_or(words.len())]
}

// Where the first word stands that begins with `#`.
fn first_remark(words: &[&str]) -> Option<usize>
    ensures { result ≡ position (λ w. is_remark w.now) words.now }
{
    words.iter().position(|word| begins_remark(word))
}

// Whether a word begins with `#`.
fn begins_remark(word: &str) -> bool
    ensures { result ≡ is_remark word.now }
{
    word.starts_with('#')
}

// What words ask for, or nothing where there are none.
fn read_words<'a>(heap: Global, words: &[&'a str]) -> Result<Option<Line>, Unread<'a>>
    ensures { IfRead result (ReadsWords words.now) }
{
    let [first, rest @ ..] = words else {
        return Ok(None);
    };
    let kind = kind_in(first)?;
    let numbers = numbers_of(heap, rest)?;
    let line = line_of(kind, numbers)?;
    Ok(Some(line))
}

// The numbers that words say: a loop with `?`, since the contract tells the first word that is none.
fn numbers_of<'a>(heap: Global, words: &[&'a str]) -> Result<Vec<u32>, Unread<'a>>
    ensures { IfRead result (λ r. MatchResult r (λ v. SayNumbers words.now v.items) (TellsFirstUnclear words.now)) }
{
    let mut numbers = Vec::new(heap);
    for word in words {
        let number = number_in(word)?;
        numbers.push(number)?;
    }
    Ok(numbers)
}

// What a first word says.
fn kind_in(word: &str) -> Result<Kind, Fault<'_>>
    ensures { MatchResult result (λ kind. Says word.now (Some kind)) (λ fault. Says word.now None × (fault ≡ Fault.Unknown word.entry)) }
{
    word.parse().map_err(|_| Fault::Unknown(word))
}

// The number that a word says.
fn number_in(word: &str) -> Result<u32, Fault<'_>>
    ensures { MatchResult result (λ n. IsNumber word.now × (n ≡ number_of word.now)) (λ fault. (¬ IsNumber word.now) × (fault ≡ Fault.NoNumber word.entry)) }
{
    word.parse().map_err(|_| Fault::NoNumber(word))
}

// What the numbers say after a first word of this kind.
fn line_of<'a>(kind: Kind, numbers: Vec<u32>) -> Result<Line, Fault<'a>>
    ensures { result ≡ line_of kind numbers }
{
    match kind {
        Kind::Diagonal => diagonal_of(numbers.as_slice()),
        Kind::Table => Ok(Line::Table(numbers)),
        Kind::Run(way) => run_of(way, numbers.as_slice()),
    }
}

// A diagonal takes two numbers.
fn diagonal_of<'a>(numbers: &[u32]) -> Result<Line, Fault<'a>>
    ensures { result ≡ diagonal_of numbers.now }
{
    match numbers {
        [span, rise] => Ok(Line::Diagonal(*span, *rise)),
        _ => Err(Fault::Count {
            needed: 2,
            found: numbers.len(),
        }),
    }
}

// A run takes one number.
fn run_of<'a>(way: Way, numbers: &[u32]) -> Result<Line, Fault<'a>>
    ensures { result ≡ run_of way numbers.now }
{
    match numbers {
        [questions] => Ok(Line::Run(way, *questions)),
        _ => Err(Fault::Count {
            needed: 1,
            found: numbers.len(),
        }),
    }
}

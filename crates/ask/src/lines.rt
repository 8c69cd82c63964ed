// What a line of input asks for, and why one cannot be read.
ghost use Rattle.std.specs.Prelude.{◌≡◌, alloc_error};
ghost use Rattle.ask.specs.declared.lines.Unread.TheVariants.{Memory, Unclear};

use plans::Way;
use std::alloc::{AllocError, AllocFailed};

// What a line asks for: of any number of values, where a line of a job sheet has at most 64.
#[derive(Drop)]
pub enum Line {
    // the span and the rise of a diagonal
    Diagonal(u32, u32),
    // the values of a table
    Table(Vec<u32>),
    // a run of this plan with so many questions
    Run(Way, u32),
}

// What is wrong with the words of a line.
#[derive(Clone, Copy)]
pub enum Fault<'a> {
    // the first word is none of the four
    Unknown(&'a str),
    // a word that is no whole number up to 4,294,967,295
    NoNumber(&'a str),
    // another count of numbers than the first word takes
    Count { needed: usize, found: usize },
}

// Why a line was not read.
#[derive(Clone, Copy)]
pub enum Unread<'a> {
    // no memory was left
    Memory(AllocError),
    Unclear(Fault<'a>),
}

impl<T: Drop> From<AllocFailed<T>> for Unread<'_> {
    ghost from_gives = { λ _ unread. unread ≡ Memory alloc_error };

    fn from(failed: AllocFailed<T>) -> Self {
        Unread::Memory(failed.into())
    }
}

impl From<AllocError> for Unread<'_> {
    ghost from_gives = { λ e unread. unread ≡ Memory e };

    fn from(error: AllocError) -> Self {
        Unread::Memory(error)
    }
}

impl<'a> From<Fault<'a>> for Unread<'a> {
    ghost from_gives = { λ fault unread. unread ≡ Unclear fault };

    fn from(fault: Fault<'a>) -> Self {
        Unread::Unclear(fault)
    }
}

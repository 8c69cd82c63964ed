// The words of a job sheet: letters and numbers read from it, and lines of numbers written.
#![tactic(auto)]

mod cursors;
mod digits;
mod lexing;
mod numbers;
mod writing;

pub use cursors::Cursor;
pub use lexing::{Word, words_are_parts};
pub use numbers::{number_of, numbers_read_back};
pub use writing::write_line;

#[cfg(test)]
mod tests;

// Loggers: sealed devices, each of which means one table and answers its count at an argument.
#![tactic(auto)]

mod accepting;
mod asking;
mod chosen;
mod diagonals;
mod kept_table;
mod spans;
mod table_logger;

pub use asking::Logger;
pub use chosen::Chosen;
pub use diagonals::Diagonal;
pub use kept_table::KeptTable;
pub use spans::check_span;
pub use table_logger::TableLogger;

#[cfg(test)]
mod tests;

// The library for other languages: calls on numbers and slices, for C and Rust to link.
#![tactic(auto)]

mod answers;
mod asking;
mod counting;
mod making;
mod printing;
mod replies;
mod running;

pub use answers::Answer;
pub use asking::sealed_answers;
pub use counting::{sealed_climate_count, sealed_strip_count, sealed_table_ends};
pub use printing::sealed_sheet;
pub use replies::Reply;
pub use running::{sealed_climate_run, sealed_score, sealed_strip_run, sealed_table_run};

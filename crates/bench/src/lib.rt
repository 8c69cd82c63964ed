// Runs of a plan on a logger, the score of a plan, and the whole guarantee.
#![tactic(auto)]

mod asking;
mod lines;
mod running;
mod scoring;

pub use lines::Line;
pub use running::{Ran, read_out, run};
pub use scoring::{Widths, score};

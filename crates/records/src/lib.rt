// Readings as text: what a line says, and the certificate of a batch of lines.
#![tactic(auto)]

mod batches;
mod kinds;
mod lines;
mod numbers;

pub use batches::{BadLine, Batch, Refusal, Report};
pub use kinds::{Fault, Written};
pub use lines::{Line, read_line};
pub use numbers::whole;

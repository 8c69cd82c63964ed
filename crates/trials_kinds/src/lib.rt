// Trials of every kind of logger: both plans run on each, and the edges of their making and counting.
#![tactic(auto)]

mod runs;
mod samples;

pub use runs::{Both, Found, run_both, run_plan};
pub use samples::{climate, ends, supply};

#[cfg(test)]
mod edges_tests;
#[cfg(test)]
mod kinds_tests;

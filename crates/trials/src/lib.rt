// Trials: executed tests of the layers below, and the small proved calls that they share.
#![tactic(auto)]

mod looks;
mod tries;

pub use looks::{Look, adds_up, look_at, number, same_points};
pub use tries::{Purpose, look_around, second_take, try_ask, try_crossed, try_foreign};

#[cfg(test)]
mod loggers_tests;
#[cfg(test)]
mod plans_tests;
#[cfg(test)]
mod readout_tests;
#[cfg(test)]
mod run_tests;
#[cfg(test)]
mod score_tests;
#[cfg(test)]
mod ticket_tests;

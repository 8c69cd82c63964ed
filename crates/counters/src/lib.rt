// The threshold counter: a logger whose value at x is the number of lent readings whose level is at most x.
#![tactic(auto)]

mod counter;
mod counting;
mod levels;
mod theorems;

pub use counter::Counter;
pub use levels::{ClimateReading, Level, OwnUnit, SupplyReading};
pub use theorems::total_is_counted;

#[cfg(test)]
mod tests;

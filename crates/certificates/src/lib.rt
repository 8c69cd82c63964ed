// From limits to the figures on a certificate: the mean in the readings' own unit, and a certificate for a row of readings.
#![tactic(auto)]

mod certifying;
mod means;
#[cfg(test)]
mod tests;

pub use certifying::{Certificate, certify};
pub use means::{Mean, mean_of_levels};

// Loggers over other loggers: one turned end for end, and a window of one. They nest in any order.
#![tactic(auto)]

mod turning;
mod values;
mod viewing;

pub use turning::Turned;
pub use viewing::Window;

#[cfg(test)]
mod tests;

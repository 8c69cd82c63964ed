// The job sheet: lines that set loggers and run plans on them, and what they print.
#![tactic(auto)]

mod entering;
mod printing;
mod reports;
mod running;
mod sheets;

pub use sheets::run_sheet;

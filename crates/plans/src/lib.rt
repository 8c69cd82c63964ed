// Plans of asking: which argument to ask next, given the log so far.
#![tactic(auto)]

mod any_plans;
mod asking;
mod fallback;
mod gaps;
mod rectangles;
mod spacings;
mod ways;

pub use any_plans::AnyPlan;
pub use asking::Plan;
pub use fallback::lowest_unknown;
pub use rectangles::WidestRectangle;
pub use spacings::EqualSpacing;
pub use ways::Way;

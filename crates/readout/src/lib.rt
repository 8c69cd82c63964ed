// A readout: it gives tickets for questions under a budget, takes the answers into its log, and tells the limits so far.
#![tactic(auto)]

mod calls;
mod events;
mod history;
mod opening;
mod reading;
mod readouts;
mod step;
mod tickets;

pub use events::{Event, Outcome, Refusal, Summary};
pub use history::pasts_are_lawful;
pub use readouts::Readout;
pub use tickets::{Returned, Ticket};

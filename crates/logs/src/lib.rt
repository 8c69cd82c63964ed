// The log of a readout: the points known so far, in fixed memory, and the limits that they set.
#![tactic(auto)]

mod buffers;
mod limits;
mod logs;
mod misfits;
mod places;
mod reading;
mod search;
mod sums;
mod writing;

pub use limits::Limits;
pub use logs::Log;
pub use misfits::{BadEnds, Misfit};

// The library's face: all that is open to users, by name. Programs list this one crate.
#![tactic(auto)]

// why a call refuses
pub use denials::Denial;

// points, the log that they make, and its limits
pub use logs::{BadEnds, Limits, Log, Misfit};
pub use tables::{Point, least_width};

// loggers, by the tables that they mean
pub use counters::{ClimateReading, Counter, Level, OwnUnit, SupplyReading};
pub use loggers::{Chosen, Diagonal, KeptTable, Logger, TableLogger, check_span};
pub use strips::DoorStrip;
pub use windows::{Turned, Window};

// plans, by the functions that they mean
pub use plans::{AnyPlan, EqualSpacing, Plan, Way, WidestRectangle, lowest_unknown};

// the readout and its tickets
pub use readout::{Event, Outcome, Readout, Refusal, Returned, Summary, Ticket};

// the run, the score and the guarantee
pub use bench::{Line, Ran, Widths, read_out, run, score};

// the job sheet
pub use sheet::run_sheet;

// the figures on a certificate
pub use certificates::{Certificate, Mean, certify, mean_of_levels};

// The lines of a job sheet, and what each asks for.
#![tactic(auto)]

mod exact;
mod jobs;
mod lines;
mod reading;
mod values;

pub use exact::lines_are_exact;
pub use jobs::Job;
pub use lines::line_end;
pub use reading::job_at;
pub use values::Values;

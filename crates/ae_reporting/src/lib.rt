//! A report of the project that stands: read from a file, run, and told.
#![tactic(auto)]

mod answering;
mod asked;
mod file;
mod laws;
mod printing;
mod telling;

pub use answering::report;
pub use asked::AskedReport;
pub use laws::{reports_are_of_logs, reports_have_one_answer};
pub use telling::tell_report;

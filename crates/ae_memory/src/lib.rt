//! Forms in memory of what is outside: directories in which scripted runs happen, a source and a sink. They tell all they hold.
#![tactic(auto)]

mod calls;
mod sink;
mod site;
mod site_files;
mod site_run;
mod source;

pub use calls::Calls;
pub use sink::MemSink;
pub use site::MemSite;
pub use site_run::{MemRun, MemRunList, RunDone, RunDoneList};
pub use source::MemSource;

//! The outside of the program: a disk of named files, directories in which commands run, a source and sinks.
#![tactic(auto)]

mod dir;
mod disk;
mod failed;
mod site;
mod streams;

pub use dir::{Content, Dir, Exit};
pub use disk::Disk;
pub use failed::{Failed, ReadError, SiteError};
pub use site::Site;
pub use streams::{Sink, Source};

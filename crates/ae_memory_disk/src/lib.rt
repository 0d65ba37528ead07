//! A disk in memory, which tells all it holds, fails where it is asked to, and is stopped at any moment.
#![tactic(auto)]

mod disk;
mod disk_files;
mod disk_log;
mod disk_stop;

pub use disk::MemDisk;
pub use disk_stop::Pick;

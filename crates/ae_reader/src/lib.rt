//! The lines of a script, cut from a source that is read in pieces.
#![tactic(auto)]

mod reader;

pub use reader::{LineError, LineReader};

//! The rules of the records are tested: a state is made of records that keep them, and else the file that breaks one first
//! is named.
#![tactic(auto)]

mod candidate;
mod change_alone;
mod check;
mod clashes;
mod deltas;
mod entries;
mod error;
mod files_alone;
mod integration;
mod locks;
mod order;
mod phases;
mod project_alone;
mod versions;

pub use change_alone::change_is_good;
pub use check::{blamed, state_of};
pub use error::CheckError;
pub use files_alone::files_are_good;
pub use project_alone::project_is_good;

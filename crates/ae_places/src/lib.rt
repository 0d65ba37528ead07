//! The places of versions in the packed file: those that are taken, and those that new versions get.
#![tactic(auto)]

mod laws;
mod spacing;
mod taking;

pub use laws::places_are_in_space;
pub use spacing::space_of;
pub use taking::{take_places, units_of};

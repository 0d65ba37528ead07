//! What a change is that is made by the plan of a change set.
#![tactic(auto)]

mod laws;

pub use laws::received_changes_are_as_sent;

//! One command, from the store to the reply.
#![tactic(auto)]

mod bringing;
mod candidate;
mod comparing;
mod directories;
mod laws;
mod load;
mod next;
mod open;
mod performing;
mod pieces;
mod plan;
mod project;
mod reply;
mod request;
mod running;
mod runs;
mod runs_plan;
mod seeing;
mod sight;
mod stop;
mod version;

pub use laws::{
    calls_join, ends_once, failed_commands_change_in_part, legal_logs_are_held, note_runs_are_real,
    note_runs_fit, note_shown, note_whole, performed_is_legal, placing_is_in_space,
    released_files_are_evident, versions_are_carried,
};
pub use performing::{Performed, outcome_of_stop, perform};
pub use project::load_project;
pub use stop::Stop;
pub use version::read_version;

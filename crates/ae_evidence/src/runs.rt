// Runs that are to be made, and runs that were made.
use ae_base::{Kind, Path, Snapshot, Text};
use ae_outside::Exit;
use ae_types::Rows;

/// A run that is to be made: of which kind, of which test if it is of one, and its command.
#[derive(Drop)]
pub struct Job {
    pub kind: Kind,
    pub path: Option<Path>,
    pub command: Text,
}

/// Runs that are to be made, one after another.
pub type JobList = Rows<Job>;

/// A run that a command made: what was run, how it ended, and the tracked files before and after it.
#[derive(Drop)]
pub struct RunRow {
    pub kind: Kind,
    pub path: Option<Path>,
    pub exit: Exit,
    pub before: Snapshot,
    pub after: Snapshot,
}

/// Runs, in the order in which they were made.
pub type RunRowList = Rows<RunRow>;

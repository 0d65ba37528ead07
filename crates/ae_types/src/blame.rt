// Which state file is wrong.
use ae_base::ChangeNo;

/// The state file that is blamed: the project's, the file table, or that of a change.
#[derive(Clone, Copy, Debug)]
pub enum Blame {
    Project,
    Files,
    Change(ChangeNo),
}

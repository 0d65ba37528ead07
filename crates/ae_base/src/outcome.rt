// How a call of the program ended.
ghost use Rattle.std.specs.Prelude.{◌≡◌};
ghost use Rattle.ae_base.specs.Outcomes.{status_of};

use crate::{Refusal, Text};

/// How a call of the program ended.
#[derive(Debug, Drop)]
pub enum Outcome {
    /// The command was accepted and no run failed, or a script was read to its end.
    Done,
    /// Builds or tests were made and recorded, and one hasn't the wanted status or changed tracked files.
    RunFailed,
    /// The command is against a rule; nothing is changed.
    Refused(Refusal),
    /// The word at this place, counted from 1, isn't understood; 0 stands for the user or the moment.
    BadWords(u32),
    /// The script's line of this number, counted from 1, isn't understood; the lines before it are done.
    BadScript(u32),
    /// A call of the disk failed.
    DiskFault,
    /// A call of the directories failed.
    SiteFault,
    /// The output couldn't be written; what the command did stands.
    SinkFault,
    /// The input couldn't be read; the commands before stand.
    SourceFault,
    /// This file of the store is damaged.
    Damaged(Text),
    /// Out of memory; nothing is changed.
    Memory,
}

impl Outcome {
    /// The exit status.
    pub fn status(&self) -> u8
        ensures { result ≡ status_of self.now }
    {
        match self {
            Outcome::Done => 0,
            Outcome::RunFailed | Outcome::Refused(_) => 1,
            Outcome::BadWords(_) | Outcome::BadScript(_) => 2,
            Outcome::DiskFault => 3,
            Outcome::SiteFault => 4,
            Outcome::SinkFault => 5,
            Outcome::SourceFault => 6,
            Outcome::Damaged(_) => 7,
            Outcome::Memory => 8,
        }
    }
}

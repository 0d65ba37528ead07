// What a call has asked of the directories, in order, turn by turn. A call that is made again needs no run that was made already on just
// the same files: where it has asked for just the same so far, and found the same, the run is answered by that one.
use crate::places::{Node, Stamp};
use ae_outside::Exit;
use std::alloc::{AllocError, Global};

/// What a file held as it was read.
#[derive(Clone, Copy, Debug, PartialEq, Eq)]
pub enum Mark {
    /// There was no file.
    Absent,
    /// Bytes with this SHA-256.
    Digest([u8; 32]),
    /// Those of a file that nobody had changed for a while.
    Stamp(Stamp),
    /// More than was read.
    Unknown,
}

/// A command that is run in a directory: its words, the directory's place, and which folder that is.
#[derive(Clone, Copy)]
pub struct Job<'a> {
    pub command: &'a str,
    pub place: &'a str,
    pub node: Node,
}

// What was asked of the directories, and what came of it.
#[derive(Drop)]
enum Step {
    Read {
        place: String,
        mark: Mark,
    },
    // Something was written or removed.
    Change,
    Run {
        command: String,
        place: String,
        node: Node,
        exit: Exit,
    },
}

/// The steps of this turn, and those of the turn before.
#[derive(Drop)]
pub struct Made {
    before: Vec<Step>,
    now: Vec<Step>,
    // Whether this turn has asked for just what the turn before asked for, and found the same, and neither has changed anything.
    agrees: bool,
}

impl Made {
    /// Nothing was asked for yet.
    pub fn nothing(alloc: Global) -> Made {
        Made {
            before: Vec::new(alloc),
            now: Vec::new(alloc),
            agrees: false,
        }
    }

    /// The call is made again.
    pub fn begin_again(&mut self, alloc: Global) {
        self.before = std::mem::replace(&mut self.now, Vec::new(alloc));
        self.agrees = true;
    }

    /// Notes what was read of a file.
    pub fn note_read(&mut self, place: String, mark: Mark) -> Result<(), AllocError> {
        let is_same = match self.before.get(self.now.len()) {
            Some(
                Step::Read {
                    place: known,
                    mark: found,
                },
            ) => *known == place && *found == mark && mark != Mark::Unknown,
            _ => false,
        };
        self.agrees = self.agrees && is_same;
        Ok(self.now.push(Step::Read { place, mark })?)
    }

    /// Notes that something is written or removed.
    pub fn note_change(&mut self) -> Result<(), AllocError> {
        self.agrees = false;
        Ok(self.now.push(Step::Change)?)
    }

    /// Notes a run that was made, or that was answered by one of the turn before.
    pub fn note_run(&mut self, alloc: Global, job: Job, exit: Exit) -> Result<(), AllocError> {
        self.agrees = self.agrees && self.answer(job) == Some(exit);
        let command = String::from_str(alloc, job.command)?;
        let place = String::from_str(alloc, job.place)?;
        Ok(
            self.now.push(Step::Run {
                command,
                place,
                node: job.node,
                exit,
            })?,
        )
    }

    /// How the run of the turn before ended that stands for this one, where there is one.
    pub fn answer(&self, job: Job) -> Option<Exit> {
        if !self.agrees {
            return None;
        }
        match self.before.get(self.now.len()) {
            Some(
                Step::Run {
                    command,
                    place,
                    node,
                    exit,
                },
            ) if command.as_str() == job.command
                && place.as_str() == job.place
                && *node == job.node => { Some(*exit) }
            _ => None,
        }
    }
}

// A change: its settings, phase, people, files, runs and history.
use crate::copies::{copy_both, copy_five, copy_three};
use crate::{Rows, TryCopy, VersionRef};
use ae_base::{Action, Cause, ChangeNo, Ground, Kind, Path, Phase, Text, Usage, User, What};
use std::alloc::{AllocError, Global};

/// A file of a change: what the change does to it, the edit that it began from, and its version while the change is under
/// review or integrated.
#[derive(Drop)]
pub struct ChangeFile {
    pub path: Path,
    pub action: Action,
    pub usage: Usage,
    pub origin: u32,
    pub frozen: Option<VersionRef>,
}

/// The files of a change, ascending by path.
pub type ChangeFileList = Rows<ChangeFile>;

/// The latest run of its kind and path, made during development or integration. The status of an exit code is itself, of
/// signal `n` it is 256 + `n`; `clean` says that the files were the same after the run; `subject` is the SHA-256 of what
/// was tried; `when` is in seconds since 1970.
#[derive(Drop)]
pub struct Evidence {
    pub during: Ground,
    pub kind: Kind,
    pub path: Option<Path>,
    pub status: u16,
    pub clean: bool,
    pub subject: [u8; 32],
    pub when: u64,
    pub who: User,
}

/// Runs, ascending by when in a change's life they were made, by kind and by path.
pub type EvidenceList = Rows<Evidence>;

/// What happened to a change, who did it, when, in seconds since 1970, and why; the empty text where no reason was given.
#[derive(Drop)]
pub struct HistoryRow {
    pub what: What,
    pub who: User,
    pub when: u64,
    pub why: Text,
}

/// The history of a change, in the order in which it happened.
pub type HistoryList = Rows<HistoryRow>;

/// The settings of a change.
#[derive(Drop)]
pub struct ChangeAttributes {
    pub brief: Text,
    pub description: Text,
    pub cause: Cause,
    pub test_exempt: bool,
    pub test_baseline_exempt: bool,
    pub regression_test_exempt: bool,
}

/// A change. `reviewing` is who began the review.
#[derive(Drop)]
pub struct Change {
    pub number: ChangeNo,
    pub attributes: ChangeAttributes,
    pub phase: Phase,
    pub developer: Option<User>,
    pub reviewing: Option<User>,
    pub reviewer: Option<User>,
    pub integrator: Option<User>,
    pub files: ChangeFileList,
    pub evidence: EvidenceList,
    pub history: HistoryList,
}

/// Changes, ascending by number.
pub type ChangeList = Rows<Change>;

impl TryCopy for ChangeFile {
    fn copy(&self, alloc: Global) -> Result<ChangeFile, AllocError> {
        Ok(ChangeFile {
            path: self.path.copy(alloc)?,
            action: self.action,
            usage: self.usage,
            origin: self.origin,
            frozen: self.frozen,
        })
    }
}

impl TryCopy for Evidence {
    fn copy(&self, alloc: Global) -> Result<Evidence, AllocError> {
        let (path, who) = copy_both(alloc, &self.path, &self.who)?;
        Ok(Evidence {
            during: self.during,
            kind: self.kind,
            path,
            status: self.status,
            clean: self.clean,
            subject: self.subject,
            when: self.when,
            who,
        })
    }
}

impl TryCopy for HistoryRow {
    fn copy(&self, alloc: Global) -> Result<HistoryRow, AllocError> {
        Ok(HistoryRow {
            what: self.what,
            who: self.who.copy(alloc)?,
            when: self.when,
            why: self.why.copy(alloc)?,
        })
    }
}

impl TryCopy for ChangeAttributes {
    fn copy(&self, alloc: Global) -> Result<ChangeAttributes, AllocError> {
        Ok(ChangeAttributes {
            brief: self.brief.copy(alloc)?,
            description: self.description.copy(alloc)?,
            cause: self.cause,
            test_exempt: self.test_exempt,
            test_baseline_exempt: self.test_baseline_exempt,
            regression_test_exempt: self.regression_test_exempt,
        })
    }
}

impl TryCopy for Change {
    fn copy(&self, alloc: Global) -> Result<Change, AllocError> {
        let (files, evidence, history) = copy_three(
            alloc,
            &self.files,
            &self.evidence,
            &self.history,
        )?;
        let (attributes, developer, reviewing, reviewer, integrator) = copy_five(
            alloc,
            &self.attributes,
            &self.developer,
            &self.reviewing,
            &self.reviewer,
            &self.integrator,
        )?;
        Ok(Change {
            number: self.number,
            attributes,
            phase: self.phase,
            developer,
            reviewing,
            reviewer,
            integrator,
            files,
            evidence,
            history,
        })
    }
}

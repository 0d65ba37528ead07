// The state of a project.
ghost use Rattle.std.specs.Prelude.{◌≡◌, IfOk, option_copied};
ghost use Rattle.ae_types.specs.Observation.{Observation};
ghost use Rattle.ae_types.specs.Sound.{Sound};
ghost use Rattle.ae_types.specs.Found.{row_in, lock_in, change_at, has_number};

use crate::copies::copy_five;
use crate::lookup::{change_in, has_number, lock_in, row_in};
use crate::{Change, ChangeList, FileRow, FileRows, Lock, LockList, NumberList, Project, TryCopy};
use ae_base::{ChangeNo, Path};
use std::alloc::{AllocError, Global};
use std::marker::Model;

/// All that is recorded of a project, but for those of its changes that aren't looked at. It keeps the rules of the records.
/// Contracts see an `Observation`.
#[derive(Drop)]
pub struct State {
    project: Project,
    numbers: NumberList,
    files: FileRows,
    locks: LockList,
    changes: ChangeList,
}

/// The records of a state, which may break the rules.
#[derive(Drop)]
pub struct Parts {
    pub project: Project,
    pub numbers: NumberList,
    pub files: FileRows,
    pub locks: LockList,
    pub changes: ChangeList,
}

impl Model for Parts {
    ghost use Rattle.ae_types.specs.Observation.{Observation};

    ghost Value = { Observation };

    ghost view = { λ a. record { project = a.project; numbers = a.numbers; files = a.files; locks = a.locks; changes = a.changes } };
}

impl Model for State {
    ghost use Rattle.ae_types.specs.Observation.{Observation};
    ghost use Rattle.ae_types.specs.Sound.{Sound};

    ghost Value = { Observation };

    ghost view = { λ a. record { project = a.project; numbers = a.numbers; files = a.files; locks = a.locks; changes = a.changes } };

    ghost invariant = { λ a. Sound (record { project = a.project; numbers = a.numbers; files = a.files; locks = a.locks; changes = a.changes }) };
}

impl State {
    /// The state of these records.
    pub fn of(parts: Parts) -> State
        requires { Sound parts }
        ensures { result ≡ parts }
    {
        State {
            project: parts.project,
            numbers: parts.numbers,
            files: parts.files,
            locks: parts.locks,
            changes: parts.changes,
        }
    }

    /// Its records.
    pub fn into_parts(self) -> Parts
        ensures parts { result ≡ self }
        ensures sound { Sound self }
    {
        Parts {
            project: self.project,
            numbers: self.numbers,
            files: self.files,
            locks: self.locks,
            changes: self.changes,
        }
    }

    /// A law: a state is sound. The proof knows it where a field is used.
    pub fn note_sound(&self)
        ensures sound { Sound self.now }
    {
        let _ = &self.project;
    }

    /// The record of the project.
    pub fn project(&self) -> &Project
        ensures project { result.now ≡ self.now.project }
        ensures sound { Sound self.now }
    {
        &self.project
    }

    /// The numbers of all changes.
    pub fn numbers(&self) -> &[ChangeNo]
        ensures { result.now ≡ self.now.numbers }
    {
        self.numbers.as_slice()
    }

    /// The rows of the file table, in the order of their paths.
    pub fn files(&self) -> &[FileRow]
        ensures { result.now ≡ self.now.files }
    {
        self.files.as_slice()
    }

    /// The locks, in the order of their paths.
    pub fn locks(&self) -> &[Lock]
        ensures { result.now ≡ self.now.locks }
    {
        self.locks.as_slice()
    }

    /// The changes that are looked at.
    pub fn changes(&self) -> &[Change]
        ensures { result.now ≡ self.now.changes }
    {
        self.changes.as_slice()
    }

    /// The row of this path in the file table.
    pub fn row(&self, path: &Path) -> Option<&FileRow>
        ensures { option_copied result ≡ row_in self.now.files path.now }
    {
        row_in(self.files.as_slice(), path.bytes())
    }

    /// The lock of this path.
    pub fn lock(&self, path: &Path) -> Option<&Lock>
        ensures { option_copied result ≡ lock_in self.now.locks path.now }
    {
        lock_in(self.locks.as_slice(), path.bytes())
    }

    /// The change of this number, where it is looked at.
    pub fn change(&self, number: ChangeNo) -> Option<&Change>
        ensures { option_copied result ≡ change_at self.now number }
    {
        change_in(self.changes.as_slice(), number)
    }

    /// Whether there is a change of this number, looked at or not.
    pub fn has_change(&self, number: ChangeNo) -> bool
        ensures { result ≡ has_number self.now.numbers number }
    {
        has_number(self.numbers.as_slice(), number)
    }

    /// An equal one.
    pub fn copy(&self, alloc: Global) -> Result<State, AllocError>
        ensures { IfOk result (λ copy. copy ≡ self.now) }
    {
        let (project, numbers, files, locks, changes) = copy_five(
            alloc,
            &self.project,
            &self.numbers,
            &self.files,
            &self.locks,
            &self.changes,
        )?;
        Ok(State {
            project,
            numbers,
            files,
            locks,
            changes,
        })
    }
}

// The files of a project and the locks.

use crate::{Rows, TryCopy, VersionRef};
use ae_base::{ChangeNo, Delta, Path, Usage};
use std::alloc::{AllocError, Global};

/// What a delta made of a file: its usage and version, or no version where the delta removed it.
#[derive(Drop, PartialEq, Eq)]
pub struct FileVersion {
    pub delta: Delta,
    pub usage: Usage,
    pub version: Option<VersionRef>,
}

/// The versions of a file, ascending by delta.
pub type FileVersionList = Rows<FileVersion>;

/// A file that the project has or had. Its edit is the length of its past.
#[derive(Drop, PartialEq, Eq)]
pub struct FileRow {
    pub path: Path,
    pub past: FileVersionList,
}

/// The file table, ascending by path.
pub type FileRows = Rows<FileRow>;

/// A path that a change holds.
#[derive(Drop, PartialEq, Eq)]
pub struct Lock {
    pub path: Path,
    pub change: ChangeNo,
}

/// The locks, ascending by path.
pub type LockList = Rows<Lock>;

impl TryCopy for FileVersion {
    fn copy(&self, _alloc: Global) -> Result<FileVersion, AllocError> {
        Ok(FileVersion {
            delta: self.delta,
            usage: self.usage,
            version: self.version,
        })
    }
}

impl TryCopy for FileRow {
    fn copy(&self, alloc: Global) -> Result<FileRow, AllocError> {
        Ok(FileRow {
            path: self.path.copy(alloc)?,
            past: self.past.copy(alloc)?,
        })
    }
}

impl TryCopy for Lock {
    fn copy(&self, alloc: Global) -> Result<Lock, AllocError> {
        Ok(Lock {
            path: self.path.copy(alloc)?,
            change: self.change,
        })
    }
}

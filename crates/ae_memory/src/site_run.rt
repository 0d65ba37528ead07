// The script of a site in memory, and what was run there.
ghost use Rattle.std.specs.Prelude.{◌≡◌, [], ◌∷◌, ◌++◌, length, OnOk, OnErr};

use crate::site_files::FileRow;
use ae_base::{PathList, Snapshot, SnapshotList, Text};
use ae_outside::{Dir, Exit};
use std::alloc::{AllocError, Global};
use std::marker::Model;

/// How a run ends, and what it does to its directory: it writes the snapshots, one after another, where a row of
/// `None` removes its path, and then it removes the paths.
#[derive(Drop)]
pub struct MemRun {
    pub exit: Exit,
    pub writes: SnapshotList,
    pub removes: PathList,
}

/// The answers of the runs in order, which contracts see as the list of them.
#[derive(Drop)]
pub struct MemRunList {
    runs: Vec<MemRun>,
}

impl Model for MemRunList {
    ghost use Rattle.std.specs.Prelude.{List};
    ghost use Rattle.ae_memory.specs.declared.site_run.MemRun.{MemRun};

    ghost Value = { List MemRun };

    ghost view = { λ a. a.runs.items };
}

impl MemRunList {
    /// The script of these runs.
    pub fn of(runs: Vec<MemRun>) -> MemRunList
        ensures { result ≡ runs.items }
    {
        MemRunList { runs }
    }

    /// The runs, in their order.
    pub fn as_slice(&self) -> &[MemRun]
        ensures { result.now ≡ self.now }
    {
        self.runs.as_slice()
    }
}

/// A run: where, what, how it ended, its directory before it and as it left it, and the files of all directories as it found and
/// left them.
#[derive(Drop)]
pub struct RunDone {
    pub dir: Dir,
    pub command: Text,
    pub exit: Exit,
    pub before: Snapshot,
    pub after: Snapshot,
    pub(crate) found: Vec<FileRow>,
    pub(crate) left: Vec<FileRow>,
}

/// What was run, first to last, which contracts see as the list of it.
#[derive(Drop)]
pub struct RunDoneList {
    runs: Vec<RunDone>,
}

impl Model for RunDoneList {
    ghost use Rattle.std.specs.Prelude.{List};
    ghost use Rattle.ae_memory.specs.declared.site_run.RunDone.{RunDone};

    ghost Value = { List RunDone };

    ghost view = { λ a. a.runs.items };
}

impl RunDoneList {
    pub(crate) fn new(alloc: Global) -> RunDoneList
        ensures { result ≡ [] }
    {
        RunDoneList {
            runs: Vec::new(alloc),
        }
    }

    /// The runs, in their order.
    pub fn as_slice(&self) -> &[RunDone]
        ensures { result.now ≡ self.now }
    {
        self.runs.as_slice()
    }

    /// How many runs.
    pub fn len(&self) -> usize
        ensures { result ≡ length self.now }
    {
        self.runs.len()
    }

    pub(crate) fn push(&mut self, run: RunDone) -> Result<(), AllocError>
        ensures ok { OnOk result (self.new ≡ self.old ++ run ∷ []) }
        ensures err { OnErr result (self.new ≡ self.old) }
    {
        self.runs.push(run)?;
        Ok(())
    }
}

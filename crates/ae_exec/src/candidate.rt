// The files of a candidate, with their bytes.
ghost use Rattle.std.specs.Prelude.{◌≡◌, ◌≤◌, Some, IfOk, IfErr, OnOk};
ghost use Rattle.ae_outside.specs.State.{reads};
ghost use Rattle.ae_types.specs.Found.{change_at};
ghost use Rattle.ae_types.specs.Trees.{candidate_of};
ghost use Rattle.ae_vault.specs.Disk.{DiskFailed, IsCleanDisk, OnlyReads, files_of};
ghost use Rattle.ae_exec.specs.Bytes.{rows_at};
ghost use Rattle.ae_exec.specs.Endings.{StopsReading};
ghost use Rattle.ae_exec.specs.Reading.{AreKept, versions_of};

use crate::running::files_of_rows;
use crate::stop::Stop;
use ae_base::ChangeNo;
use ae_evidence::FileList;
use ae_files::candidate;
use ae_outside::Disk;
use ae_types::{Change, State, TreeRows};
use std::alloc::{AllocError, Global};

// The files of the candidate of the change of this number.
fn candidate_rows(
    alloc: Global,
    state: &State,
    number: ChangeNo,
    change: &Change,
) -> Result<TreeRows, AllocError>
    requires named { change_at state.now number ≡ Some change.now }
    ensures { IfOk result (λ rows. rows ≡ candidate_of state.now change.now) }
{
    candidate(alloc, state, number)
}

/// The files of the candidate of the change of this number, with their bytes.
pub(crate) fn candidate_files<D: Disk>(
    alloc: Global,
    disk: &mut D,
    state: &State,
    number: ChangeNo,
    change: &Change,
) -> Result<FileList, Stop>
    requires clean { IsCleanDisk D.Disk disk.old }
    requires named { change_at state.now number ≡ Some change.now }
    ensures rows { IfOk result (λ rows. D.tells → rows ≡ rows_at (files_of D.Disk disk.old) (candidate_of state.now change.now)) }
    ensures kept { OnOk result (D.tells → AreKept (files_of D.Disk disk.old) (versions_of (candidate_of state.now change.now))) }
    ensures same { OnlyReads D.Disk disk.old disk.new }
    ensures stopped { IfErr result (λ stop. StopsReading D.tells (reads (D.state disk.old)) (versions_of (candidate_of state.now change.now)) (DiskFailed D.Disk disk.old disk.new) stop) }
    ensures later { D.faults disk.old ≤ D.faults disk.new }
{
    state.note_sound();
    let rows = candidate_rows(alloc, state, number, change)?;
    files_of_rows(alloc, disk, rows.as_slice())
}

// The files of an integration are compared with the candidate's versions.
ghost use Rattle.std.specs.Prelude.{◌≡◌, ◌≤◌, ℕ, true, List, Some, None, IfErr, OnOk};
ghost use Rattle.ae_outside.specs.State.{reads};
ghost use Rattle.ae_vault.specs.Disk.{DiskFailed, IsCleanDisk, OnlyReads, files_of};
ghost use Rattle.ae_machine.specs.Fits.{makes_runs};
ghost use Rattle.ae_machine.specs.Sight.{with_bytes};
ghost use Rattle.ae_machine.specs.Versions.{first_differing};
ghost use Rattle.ae_exec.specs.Endings.{StopsComparing};
ghost use Rattle.ae_exec.specs.Reading.{AreKept, compared_for, versions_of};
ghost use Rattle.ae_exec.specs.Seen.{IsCompared};

use crate::running::files_of_rows;
use crate::stop::Stop;
use ae_machine::{View, files_differ, rows_compared};
use ae_outside::Disk;
use ae_types::State;
use ae_words::Command;
use std::alloc::Global;

/// Compares the files that were read with the candidate's versions, in integration: the first that differs refuses the command.
pub(crate) fn compare<D: Disk>(
    alloc: Global,
    state: &State,
    disk: &mut D,
    command: &Command,
    view: &View,
) -> Result<(), Stop>
    requires clean { IsCleanDisk D.Disk disk.old }
    requires runs { makes_runs command.now.function ≡ true }
    ensures some { OnOk result ((bytes : ℕ → List ℕ) × (first_differing view.now (with_bytes bytes (compared_for command.now state.now)) ≡ None)) }
    ensures none { OnOk result (D.tells → IsCompared (files_of D.Disk disk.old) state.now command.now view.now None) }
    ensures kept { OnOk result (D.tells → AreKept (files_of D.Disk disk.old) (versions_of (compared_for command.now state.now))) }
    ensures same { OnlyReads D.Disk disk.old disk.new }
    ensures stopped { IfErr result (StopsComparing D.tells (reads (D.state disk.old)) state.now command.now view.now (DiskFailed D.Disk disk.old disk.new)) }
    ensures later { D.faults disk.old ≤ D.faults disk.new }
{
    state.note_sound();
    let rows = rows_compared(alloc, state, command)?;
    let files = files_of_rows(alloc, disk, rows.as_slice())?;
    match files_differ(alloc, view, &files)? {
        Some(refusal) => Err(Stop::Refused(refusal)),
        None => Ok(()),
    }
}

// A change is sent.
ghost use Rattle.std.specs.Prelude.{◌≤◌, option_copied};
ghost use Rattle.ae_outside.specs.State.{reads};
ghost use Rattle.ae_vault.specs.Disk.{DiskFailed};
ghost use Rattle.ae_telling.specs.Telling.{use_of_sink};
ghost use Rattle.ae_exec.specs.Opened.{IsOpenedUnless, MayBeUnopened};
ghost use Rattle.ae_exec.specs.Performs.{LeavesDisk};
ghost use Rattle.ae_dist.specs.Telling.{IsSentTold};

use crate::writing::write_change;
use ae_base::{ChangeNo, Outcome, ProjectName};
use ae_outside::{Disk, Sink};
use ae_telling::tell_answer;
use std::alloc::Global;

/// Tells the text of what is sent of a completed change to `out`, or the message of why there is none to `err`. Nothing is written
/// before the text is whole.
pub fn tell_sent<D: Disk, O: Sink, E: Sink>(
    alloc: Global,
    disk: &mut D,
    project: Option<&ProjectName>,
    change: ChangeNo,
    out: &mut O,
    err: &mut E,
) -> Outcome
    ensures told { IsSentTold D.tells (reads (D.state disk.old)) (option_copied project.entry) change
        (DiskFailed D.Disk disk.old disk.new)
        (use_of_sink O.Sink out.old out.new) (use_of_sink E.Sink err.old err.new) result }
    // It leaves the disk as a command does that changes nothing.
    ensures disk { D.tells → LeavesDisk (D.state disk.old) (D.state disk.new) (Unit {0}) }
    // And the store is opened as by a command, unless the disk failed, a file is damaged or memory ran out: the disk holds one log then,
    // in the second format.
    ensures opened { D.tells → IsOpenedUnless (MayBeUnopened result) (D.state disk.old) (D.state disk.new) }
    ensures disk_faults { D.faults disk.old ≤ D.faults disk.new }
    ensures out_faults { O.faults out.old ≤ O.faults out.new }
    ensures err_faults { E.faults err.old ≤ E.faults err.new }
{
    let answer = write_change(alloc, disk, project, change);
    tell_answer(alloc, answer, out, err)
}

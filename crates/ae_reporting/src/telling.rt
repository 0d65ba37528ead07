// A report is told.
ghost use Rattle.std.specs.Prelude.{◌≡◌, ◌≤◌};
ghost use Rattle.ae_outside.specs.State.{reads};
ghost use Rattle.ae_vault.specs.Disk.{DiskFailed};
ghost use Rattle.ae_exec.specs.Devices.{SiteFailed};
ghost use Rattle.ae_exec.specs.Opened.{IsOpenedUnless, MayBeUnopened};
ghost use Rattle.ae_exec.specs.Performs.{LeavesDisk};
ghost use Rattle.ae_telling.specs.Telling.{use_of_sink};
ghost use Rattle.ae_reporting.specs.Asked.{asked_by};
ghost use Rattle.ae_reporting.specs.Telling.{IsDoneSo, IsReportTold};

use crate::answering::report;
use crate::asked::AskedReport;
use ae_base::Outcome;
use ae_outside::{Disk, Sink, Site};
use ae_telling::tell_answer;
use std::alloc::Global;

/// Tells the lines of a report to `out`, or the message of why there are none to `err`.
pub fn tell_report<D: Disk, S: Site, O: Sink, E: Sink>(
    alloc: Global,
    disk: &mut D,
    site: &mut S,
    asked: &AskedReport,
    out: &mut O,
    err: &mut E,
) -> Outcome
    ensures told { IsReportTold D.tells S.tells
        (reads (D.state disk.old)) (S.state site.old) (asked_by asked.now)
        (DiskFailed D.Disk disk.old disk.new) (SiteFailed S.Site site.old site.new)
        (use_of_sink O.Sink out.old out.new) (use_of_sink E.Sink err.old err.new) result }
    // Once it is done the lines were printed, and `out` has taken them.
    ensures done { IsDoneSo D.tells S.tells (reads (D.state disk.old)) (S.state site.old) (asked_by asked.now)
        (use_of_sink O.Sink out.old out.new) result }
    // It leaves the disk as a command does that changes nothing, and the directories as they are.
    ensures disk { D.tells → LeavesDisk (D.state disk.old) (D.state disk.new) (Unit {0}) }
    // And the store is opened as by a command, unless the disk failed, a file is damaged or memory ran out: the disk holds one log then,
    // in the second format.
    ensures opened { D.tells → IsOpenedUnless (MayBeUnopened result) (D.state disk.old) (D.state disk.new) }
    ensures site { S.tells → S.state site.new ≡ S.state site.old }
    ensures disk_faults { D.faults disk.old ≤ D.faults disk.new }
    ensures site_faults { S.faults site.old ≤ S.faults site.new }
    ensures out_faults { O.faults out.old ≤ O.faults out.new }
    ensures err_faults { E.faults err.old ≤ E.faults err.new }
{
    let answer = report(alloc, disk, site, asked);
    tell_answer(alloc, answer, out, err)
}

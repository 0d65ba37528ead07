// A change set is received: the input is read, a plan made of it, and its acts done.
ghost use Rattle.std.specs.Prelude.{◌≡◌, ◌≢◌, ◌≤◌, IfOk, IfErr, IsErrOf, OnOk, option_copied};
ghost use Rattle.ae_outside.specs.Causes.{HasRisen};
ghost use Rattle.ae_outside.specs.State.{reads};
ghost use Rattle.ae_vault.specs.Disk.{DiskFailed};
ghost use Rattle.ae_dist.specs.Receiving.{TakesNoMore};
ghost use Rattle.ae_exec.specs.Opened.{OpensStore};
ghost use Rattle.ae_exec.specs.Performs.{LeavesDisk};
ghost use Rattle.ae_telling.specs.Answered.{IsWhyTold};
ghost use Rattle.ae_telling.specs.Telling.{use_of_sink};
ghost use Rattle.ae_script.specs.Lines.{stand};
ghost use Rattle.ae_script.specs.Uses.{use_of_source, disks, sites};
ghost use Rattle.ae_session.specs.Called.{Receives};
ghost use Rattle.ae_session.specs.Received.{HasPlan, IsOfReceiving, IsUnplanned};

use ae_base::{Outcome, ProjectName};
use ae_dist::{ActList, plan, receive_bundle};
use ae_outside::{Disk, Sink, Site, Source};
use ae_script::{Manner, Standing, do_acts};
use ae_telling::{tell_input_fault, tell_why};
use std::alloc::Global;

// The plan of the change set that the input is, for the project that stands.
fn read_plan<D: Disk, I: Source>(
    alloc: Global,
    project: Option<&ProjectName>,
    disk: &mut D,
    input: &mut I,
) -> Result<ActList, Outcome>
    ensures plan { IfOk result (HasPlan D.tells I.tells (reads (D.state disk.old)) (option_copied project.entry)
        (I.left input.old) (I.left input.new)) }
    ensures none { IfErr result (IsUnplanned D.tells I.tells (reads (D.state disk.old)) (option_copied project.entry)
        (I.left input.old) (I.left input.new) (disk.new ≡ disk.old)
        (OpensStore D.Disk disk.old disk.new)
        (DiskFailed D.Disk disk.old disk.new) (HasRisen (I.faults input.old) (I.faults input.new))) }
    ensures opened { OnOk result (OpensStore D.Disk disk.old disk.new) }
    ensures no_more { I.tells → TakesNoMore (I.left input.old) (I.left input.new) }
    ensures disk { D.tells → LeavesDisk (D.state disk.old) (D.state disk.new) (Unit {0}) }
    ensures disk_faults { D.faults disk.old ≤ D.faults disk.new }
    ensures quiet { (IsErrOf result Outcome.SourceFault → ⊥) → I.faults input.new ≡ I.faults input.old }
    ensures input_faults { I.faults input.old ≤ I.faults input.new }
{
    match receive_bundle(alloc, input) {
        Ok(bundle) => plan(alloc, disk, project, bundle),
        Err(why) => Err(why),
    }
}

// Tells why nothing is done.
fn tell_unreceived<E: Sink>(alloc: Global, why: Outcome, err: &mut E) -> Outcome
    requires { IsOfReceiving why }
    ensures told { IsWhyTold why (use_of_sink E.Sink err.old err.new) result }
    ensures later { E.faults err.old ≤ E.faults err.new }
{
    match why {
        Outcome::SourceFault => tell_input_fault(err),
        why => tell_why(alloc, why, err),
    }
}

/// Receives the input as a change set: reads it to its end, makes its plan for the project that stands, which is the one of this name
/// where one is given, and does the acts of the plan up to the first that isn't done. What is said of each is written to `err`.
pub(crate) fn receive<D: Disk, S: Site, I: Source, E: Sink>(
    alloc: Global,
    project: Option<&ProjectName>,
    standing: Standing,
    disk: &mut D,
    site: &mut S,
    input: &mut I,
    err: &mut E,
) -> Outcome
    ensures done { let d = disks D.Disk in let s = sites S.Site in
        Receives d s (option_copied project.entry) (stand d s standing.who standing.now disk.old site.old) disk.new site.new
        (use_of_source I.Source input.old input.new) (use_of_sink E.Sink err.old err.new) result }
    ensures no_more { I.tells → TakesNoMore (I.left input.old) (I.left input.new) }
    ensures quiet { result ≢ Outcome.SourceFault → I.faults input.new ≡ I.faults input.old }
    ensures unfailed { result ≢ Outcome.RunFailed }
    ensures input_faults { I.faults input.old ≤ I.faults input.new }
    ensures err_faults { E.faults err.old ≤ E.faults err.new }
{
    match read_plan(alloc, project, disk, input) {
        Ok(acts) => do_acts(
            alloc,
            acts.as_slice(),
            Manner::Plan,
            standing,
            disk,
            site,
            err,
        ),
        Err(why) => tell_unreceived(alloc, why, err),
    }
}

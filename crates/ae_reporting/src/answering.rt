// A report of the project that stands.
ghost use Rattle.std.specs.Prelude.{◌≡◌, ◌≤◌, ℕ, List, IfOk, IfErr, Some, Ok};
ghost use Rattle.std.specs.Result.{IsErrAnd};
ghost use Rattle.ae_base.specs.declared.want.Want.TheVariants.{All};
ghost use Rattle.ae_outside.specs.State.{reads};
ghost use Rattle.ae_vault.specs.Disk.{DiskFailed};
ghost use Rattle.ae_exec.specs.Devices.{SiteFailed};
ghost use Rattle.ae_exec.specs.Endings.{IsDamagedAt};
ghost use Rattle.ae_exec.specs.Opened.{IsOpenedUnless, MayBeUnopened};
ghost use Rattle.ae_exec.specs.Performs.{LeavesDisk};
ghost use Rattle.ae_reporting.specs.Answers.{FailsAs, FailsOn, IsAnswered, IsFoundDamaged, IsReported, file_at};
ghost use Rattle.ae_reporting.specs.Asked.{asked_by};
ghost use Rattle.ae_reporting.specs.Reports.{Answer, Reports, is_asked};

use crate::asked::AskedReport;
use crate::file::read_file;
use crate::printing::print;
use ae_base::{Outcome, Refusal, Text, Want};
use ae_exec::load_project;
use ae_outside::{Disk, Site};
use ae_types::State;
use std::alloc::Global;

// Whether this is the project that is asked for.
fn is_asked(state: &State, asked: &AskedReport) -> bool
    ensures { result ≡ is_asked (asked_by asked.now) state.now }
{
    match asked.project {
        Some(name) => state.project().name.bytes() == name.bytes(),
        None => true,
    }
}

// What is answered where this project stands.
fn report_on<S: Site>(
    alloc: Global,
    state: &State,
    site: &mut S,
    asked: &AskedReport,
) -> Result<Text, Outcome>
    ensures printed { IfOk result (λ lines. S.tells →
        Reports (Some state.now) (asked_by asked.now) (file_at asked.now.path.now (S.state site.old)) (Ok lines)) }
    ensures fails { IfErr result (FailsOn S.tells state.now (S.state site.old) (asked_by asked.now)
        (SiteFailed S.Site site.old site.new)) }
    ensures same { S.tells → S.state site.new ≡ S.state site.old }
    ensures later { S.faults site.old ≤ S.faults site.new }
{
    if !is_asked(state, asked) {
        return Err(Outcome::Refused(Refusal::WrongProject));
    }
    match read_file(alloc, site, asked.path) {
        Ok(bytes) => print(alloc, bytes.bytes(), state),
        Err(why) => Err(why),
    }
}

// The same, where the state is at its end.
fn report_last<S: Site>(
    alloc: Global,
    state: State,
    site: &mut S,
    asked: &AskedReport,
) -> Result<Text, Outcome>
    ensures printed { IfOk result (λ lines. S.tells →
        Reports (Some state) (asked_by asked.now) (file_at asked.now.path.now (S.state site.old)) (Ok lines)) }
    ensures fails { IfErr result (FailsOn S.tells state (S.state site.old) (asked_by asked.now)
        (SiteFailed S.Site site.old site.new)) }
    ensures same { S.tells → S.state site.new ≡ S.state site.old }
    ensures later { S.faults site.old ≤ S.faults site.new }
{
    let answer = report_on(alloc, &state, site, asked);
    drop(state);
    answer
}

/// Reads a report from the folder where the call is made, and runs it over the project that stands; the disk is opened as a command
/// opens it. Where a project is named it has to be that one.
pub fn report<D: Disk, S: Site>(
    alloc: Global,
    disk: &mut D,
    site: &mut S,
    asked: &AskedReport,
) -> Result<Text, Outcome>
    // The lines are those that the report prints of what the disk's files show.
    ensures printed { IfOk result (λ lines. D.tells → S.tells →
        IsReported (reads (D.state disk.old)) (S.state site.old) (asked_by asked.now) (Ok lines)) }
    // It fails by a refusal, a damaged file, a fault, or out of memory; the directories only once the project that is asked for stands.
    ensures fails { IfErr result (FailsAs D.tells S.tells
        (reads (D.state disk.old)) (S.state site.old) (asked_by asked.now)
        (DiskFailed D.Disk disk.old disk.new) (SiteFailed S.Site site.old site.new)) }
    // What the files show has one answer, which comes unless something failed or memory ran out.
    ensures only { D.tells → S.tells → (answer : Answer) →
        IsReported (reads (D.state disk.old)) (S.state site.old) (asked_by asked.now) answer → IsAnswered answer result }
    // A damaged file is named, unless the disk failed or memory ran out.
    ensures only_damaged { D.tells → S.tells → (name : List ℕ) →
        IsDamagedAt All (reads (D.state disk.old)) name → IsFoundDamaged name result }
    // It leaves the disk as a command does that changes nothing, and the directories as they are.
    ensures disk { D.tells → LeavesDisk (D.state disk.old) (D.state disk.new) (Unit {0}) }
    // And the store is opened as by a command, unless the disk failed, a file is damaged or memory ran out: the disk holds one log then,
    // in the second format.
    ensures opened { D.tells → IsOpenedUnless (IsErrAnd result MayBeUnopened) (D.state disk.old) (D.state disk.new) }
    ensures site { S.tells → S.state site.new ≡ S.state site.old }
    ensures disk_faults { D.faults disk.old ≤ D.faults disk.new }
    ensures site_faults { S.faults site.old ≤ S.faults site.new }
{
    match load_project(alloc, disk, Want::All) {
        Ok(Some(state)) => report_last(alloc, state, site, asked),
        Ok(None) => Err(Outcome::Refused(Refusal::NoProject)),
        Err(why) => Err(why),
    }
}

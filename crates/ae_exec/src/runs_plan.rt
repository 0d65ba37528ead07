// A build or a test is planned.
ghost use Rattle.std.specs.Prelude.{◌≡◌, ◌≤◌, ℕ, List, true, Some, None, Option, IfOk, IfErr, option_copied};
ghost use Rattle.ae_base.specs.declared.outcome.Outcome.{Outcome};
ghost use Rattle.ae_outside.specs.State.{reads};
ghost use Rattle.ae_vault.specs.Disk.{DiskFailed, IsCleanDisk, OnlyReads, files_of};
ghost use Rattle.ae_machine.specs.Fits.{makes_runs};
ghost use Rattle.ae_log.specs.declared.event.Event.{Event};
ghost use Rattle.ae_machine.specs.declared.verdict.Verdict.TheVariants.{Accept};
ghost use Rattle.ae_machine.specs.Space.{placing};
ghost use Rattle.ae_machine.specs.Verdict.{refused_before, verdict};
ghost use Rattle.ae_machine.specs.Versions.{ShowsVersions};
ghost use Rattle.ae_exec.specs.Devices.{SiteFailed};
ghost use Rattle.ae_exec.specs.Directories.{ChangesAsAsked, DirsAsAsked, LeavesDirs};
ghost use Rattle.ae_exec.specs.Endings.{StopsPlanning, outcome_of, outcome_of_stop};
ghost use Rattle.ae_exec.specs.Requested.{called_by};
ghost use Rattle.ae_exec.specs.Plan.{IsMade, IsPlanned};
ghost use Rattle.ae_exec.specs.Seen.{IsDecidedSo};

use crate::plan::{Plan, answer_on, prepare};
use crate::request::Request;
use crate::running::{make_runs, ready};
use crate::seeing::see;
use crate::stop::Stop;
use ae_evidence::RunRowList;
use ae_machine::{Verdict, View, runs_dir};
use ae_outside::{Disk, Site};
use ae_types::State;
use ae_words::Command;
use std::alloc::{AllocError, Global};

/// What is put and said of a command that makes runs, and that nothing refuses which asks nothing of the directories.
pub(crate) fn plan_runs<D: Disk, S: Site>(
    alloc: Global,
    old: Option<&State>,
    disk: &mut D,
    site: &mut S,
    request: &Request,
) -> Result<Plan, Stop>
    requires clean { IsCleanDisk D.Disk disk.old }
    requires runs { makes_runs request.now.command.now.function ≡ true }
    requires passed { refused_before (option_copied old) request.now.command.now request.now.who.now ≡ None }
    ensures planned { IfOk result (λ plan. IsPlanned (D.tells × S.tells) (files_of D.Disk disk.old) (option_copied old.entry) (called_by request.now (S.state site.old) (S.state site.new)) request.now.status_line plan.batch plan.finished) }
    ensures stopped { IfErr result (StopsPlanning D.tells S.tells (reads (D.state disk.old)) (option_copied old.entry) (called_by request.now (S.state site.old) (S.state site.new)) (DiskFailed D.Disk disk.old disk.new) (SiteFailed S.Site site.old site.new)) }
    ensures directories { S.tells → LeavesDirs request.now.command.now (S.state site.old) (S.state site.new) (outcome_of result) }
    ensures asked { S.tells → DirsAsAsked D.tells (files_of D.Disk disk.old) request.now.command.now (option_copied old.entry) (S.state site.old) (S.state site.new) (outcome_of result) }
    ensures early { S.tells → IfErr result (λ stop. outcome_of_stop stop ≡ Outcome.DiskFault → S.state site.new ≡ S.state site.old) }
    ensures same { OnlyReads D.Disk disk.old disk.new }
    ensures disk_later { D.faults disk.old ≤ D.faults disk.new }
    ensures site_later { S.faults site.old ≤ S.faults site.new }
{
    let Some(state) = old else { unreachable!() };
    plan_runs_on(alloc, state, disk, site, request)
}

// The view with these runs.
fn with_runs(view: View, runs: RunRowList) -> View
    ensures { result ≡ record view { runs = runs } }
{
    View {
        attributes: view.attributes,
        develop: view.develop,
        runs,
    }
}

// What is put and said of a command that is accepted, with what it sees after its runs.
fn plan_accepted(
    alloc: Global,
    state: &State,
    request: &Request,
    view: &View,
) -> Result<Plan, AllocError>
    requires runs { makes_runs request.now.command.now.function ≡ true }
    requires passed { refused_before (Some state.now) request.now.command.now request.now.who.now ≡ None }
    requires accepted { (bytes : ℕ → List ℕ) × ShowsVersions (Some state.now) bytes request.now.command.now request.now.who.now view.now × (events : List Event) × (verdict placing (Some state.now) bytes request.now.command.now request.now.who.now request.now.when view.now ≡ Accept events) }
    ensures { IfOk result (λ plan. (events : List Event) × IsDecidedSo (Some state.now) request.now.command.now request.now.who.now request.now.when view.now (Accept events) × IsMade (Some state.now) request.now.command.now request.now.status_line events plan.batch plan.finished) }
{
    match answer_on(alloc, state, request, view)? {
        Verdict::Accept(events) => prepare(
            alloc,
            Some(state),
            request.command,
            events,
            request.status_line,
        ),
        Verdict::Refuse(_) => unreachable!(),
    }
}

// The same where a project stands.
fn plan_runs_on<D: Disk, S: Site>(
    alloc: Global,
    state: &State,
    disk: &mut D,
    site: &mut S,
    request: &Request,
) -> Result<Plan, Stop>
    requires clean { IsCleanDisk D.Disk disk.old }
    requires runs { makes_runs request.now.command.now.function ≡ true }
    requires passed { refused_before (Some state.now) request.now.command.now request.now.who.now ≡ None }
    ensures planned { IfOk result (λ plan. IsPlanned (D.tells × S.tells) (files_of D.Disk disk.old) (Some state.now) (called_by request.now (S.state site.old) (S.state site.new)) request.now.status_line plan.batch plan.finished) }
    ensures stopped { IfErr result (StopsPlanning D.tells S.tells (reads (D.state disk.old)) (Some state.now) (called_by request.now (S.state site.old) (S.state site.new)) (DiskFailed D.Disk disk.old disk.new) (SiteFailed S.Site site.old site.new)) }
    ensures directories { S.tells → LeavesDirs request.now.command.now (S.state site.old) (S.state site.new) (outcome_of result) }
    ensures asked { S.tells → ChangesAsAsked D.tells (files_of D.Disk disk.old) request.now.command.now state.now (S.state site.old) (S.state site.new) (outcome_of result) }
    ensures early { S.tells → IfErr result (λ stop. outcome_of_stop stop ≡ Outcome.DiskFault → S.state site.new ≡ S.state site.old) }
    ensures same { OnlyReads D.Disk disk.old disk.new }
    ensures disk_later { D.faults disk.old ≤ D.faults disk.new }
    ensures site_later { S.faults site.old ≤ S.faults site.new }
{
    state.note_sound();
    let view = see(alloc, state, disk, site, request.command)?;
    if let Verdict::Refuse(refusal) = answer_on(alloc, state, request, &view)? {
        return Err(Stop::Refused(refusal));
    }
    let plan = ready(alloc, state, disk, request.command, &view)?;
    let made = make_runs(alloc, site, runs_dir(state, request.command), &plan);
    drop(plan);
    let runs = made?;
    let view = with_runs(view, runs);
    let planned = plan_accepted(alloc, state, request, &view);
    drop(view);
    Ok(planned?)
}

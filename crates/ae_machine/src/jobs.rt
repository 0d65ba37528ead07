// The runs that a build or a test is to make, each with its command, and those that were made, as events.
ghost use Rattle.std.specs.Prelude.{◌≡◌, [], ℕ, List, Some, All, map, true, IfOk, option_copied};
ghost use Rattle.ae_log.specs.declared.event.EventKind.TheVariants as on;
ghost use Rattle.ae_types.specs.Found.{change_at};
ghost use Rattle.ae_evidence.specs.declared.runs.Job.{Job};
ghost use Rattle.ae_machine.specs.declared.verdict.Verdict.TheVariants.{Accept};
ghost use Rattle.ae_machine.specs.Call.{Placing, given_in, given_of};
ghost use Rattle.ae_machine.specs.Commands.{AnswersRun, AnswersRuns, GivesCommands, command_told, config_read, config_seen, run_told};
ghost use Rattle.ae_machine.specs.Deciding.{given_to};
ghost use Rattle.ae_machine.specs.Jobs.{AnswersJobs};
ghost use Rattle.ae_conf.specs.Values.{IsCommand};
ghost use Rattle.ae_machine.specs.Fits.{makes_runs};
ghost use Rattle.ae_machine.specs.Runs.{needed_of};
ghost use Rattle.ae_log.specs.Maker.{event_by};
ghost use Rattle.ae_machine.specs.Verdict.{events_of, maker_by};
ghost use Rattle.ae_machine.specs.Versions.{ShowsVersions};

use crate::call::Call;
use crate::commands::{ConfigRead, command_from, config_read};
use crate::events::push_event;
use crate::reading::{config_seen, subject};
use crate::runs::{delta_of_run, group, named_copy, part_of, values_of};
use crate::{Verdict, View};
use ae_base::{ChangeNo, Delta, Kind, Path, ProjectName, Refusal, Snapshot, Text};
use ae_evidence::{Job, JobList, RunKey, RunRow};
use ae_log::{EventKind, EventList, RunEvent};
use ae_types::{Change, Rows, State};
use ae_words::Command;
use std::alloc::{AllocError, Global};

// What the commands of the runs of a change are made of.
#[derive(Drop)]
struct Told<'a> {
    project: &'a ProjectName,
    change: &'a Change,
    delta: Delta,
    read: &'a ConfigRead,
}

// The command of a run of this kind and path, or why there is none.
fn command_told(
    alloc: Global,
    told: &Told,
    kind: Kind,
    path: Option<&Path>,
) -> Result<Result<Text, Refusal>, AllocError>
    requires { GivesCommands told.now.read.now }
    ensures command { IfOk result (λ command. command ≡ command_told told.now.project.now told.now.change.now told.now.delta told.now.read.now (record { kind = kind; path = option_copied path.entry })) }
    ensures may_run { IfOk result (λ command. IfOk command IsCommand) }
{
    let values = values_of(alloc, told.project, told.change, told.delta, path)?;
    command_from(alloc, told.read, kind, &values)
}

// The run with its command, or why it has none.
fn make_job(alloc: Global, told: &Told, run: &RunKey) -> Result<Result<Job, Refusal>, AllocError>
    requires { GivesCommands told.now.read.now }
    ensures job { IfOk result (AnswersRun (command_told told.now.project.now told.now.change.now told.now.delta told.now.read.now) run.now) }
    ensures command { IfOk result (λ job. IfOk job (λ (job : Job). IsCommand job.command)) }
{
    let path = run.path.as_ref();
    match command_told(alloc, told, run.kind, path)? {
        Ok(command) => Ok(Ok(Job {
            kind: run.kind,
            path: named_copy(alloc, path)?,
            command,
        })),
        Err(refusal) => Ok(Err(refusal)),
    }
}

// The runs, each with its command, or why the first that has none has none.
fn make_jobs(
    alloc: Global,
    told: &Told,
    runs: &[RunKey],
) -> Result<Result<JobList, Refusal>, AllocError>
    requires { GivesCommands told.now.read.now }
    ensures jobs { IfOk result (AnswersRuns (command_told told.now.project.now told.now.change.now told.now.delta told.now.read.now) runs.now) }
    ensures commands { IfOk result (λ jobs. IfOk jobs (All (λ (job : Job). IsCommand job.command))) }
{
    let mut jobs = JobList::new(alloc);
    for run in runs {
        match make_job(alloc, told, run)? {
            Ok(job) => jobs.push(job)?,
            Err(refusal) => return Ok(Err(refusal)),
        }
    }
    Ok(Ok(jobs))
}

// What aegis.conf gives, as far as the command sees it.
fn config_of(
    alloc: Global,
    state: &State,
    number: ChangeNo,
    change: &Change,
    view: &View,
) -> Result<ConfigRead, AllocError>
    requires named { change_at state.now number ≡ Some change.now }
    ensures read { IfOk result (λ read. read ≡ config_read (config_seen state.now change.now view.now)) }
    ensures commands { IfOk result GivesCommands }
{
    let bytes = config_seen(alloc, state, number, change, view)?;
    config_read(alloc, bytes)
}

/// The runs that the command is to make for this change, each with its command, or why one has none.
pub(crate) fn jobs_of(
    alloc: Global,
    state: &State,
    command: &Command,
    number: ChangeNo,
    change: &Change,
    view: &View,
) -> Result<Result<JobList, Refusal>, AllocError>
    requires runs { makes_runs command.now.function ≡ true }
    requires names { command.now.change ≡ Some number }
    requires named { change_at state.now number ≡ Some change.now }
    ensures jobs { (places : Placing) (bytes : ℕ → List ℕ) (who : List ℕ) (when : ℕ) →
        ShowsVersions (Some state.now) bytes command.now who view.now →
        IfOk result (AnswersJobs (given_of places state.now bytes command.now who when view.now)) }
    ensures commands { IfOk result (λ jobs. IfOk jobs (All (λ (job : Job). IsCommand job.command))) }
{
    let project = state.project();
    let runs = group(alloc, state, command, change)?;
    let read = config_of(alloc, state, number, change, view)?;
    let delta = delta_of_run(state, change);
    let told = Told {
        project: &project.name,
        change,
        delta,
        read: &read,
    };
    make_jobs(alloc, &told, runs.as_slice())
}

/// The runs that the command is to make, each with the command that aegis.conf gives for it, or why one has none. That file's
/// bytes are taken from what the command sees.
pub fn jobs_asked(
    alloc: Global,
    state: &State,
    command: &Command,
    view: &View,
) -> Result<Result<JobList, Refusal>, AllocError>
    requires runs { makes_runs command.now.function ≡ true }
    ensures jobs { (places : Placing) (bytes : ℕ → List ℕ) (who : List ℕ) (when : ℕ) →
        ShowsVersions (Some state.now) bytes command.now who view.now →
        IfOk result (AnswersJobs (given_of places state.now bytes command.now who when view.now)) }
    ensures commands { IfOk result (λ jobs. IfOk jobs (All (λ (job : Job). IsCommand job.command))) }
{
    let Some(number) = command.change else {
        return Ok(Ok(JobList::new(alloc)));
    };
    match state.change(number) {
        Some(change) => jobs_of(alloc, state, command, number, change, view),
        None => Ok(Ok(JobList::new(alloc))),
    }
}

// The command with which a run was made, empty where none is given for it.
fn command_run(alloc: Global, told: &Told, run: &RunRow) -> Result<Text, AllocError>
    requires { GivesCommands told.now.read.now }
    ensures { IfOk result (λ command. command ≡ given_in (command_told told.now.project.now told.now.change.now told.now.delta told.now.read.now (needed_of run.now)) []) }
{
    match command_told(alloc, told, run.kind, run.path.as_ref())? {
        Ok(command) => Ok(command),
        Err(refusal) => {
            drop(refusal);
            Ok(Text::of(Vec::new(alloc)))
        }
    }
}

// The tracked files before and after a run.
fn trees_of(alloc: Global, run: &RunRow) -> Result<(Snapshot, Snapshot), AllocError>
    ensures { IfOk result (λ trees. trees ≡ (run.now.before, run.now.after)) }
{
    let before = run.before.copy(alloc)?;
    Ok((before, run.after.copy(alloc)?))
}

// The run as it is recorded.
fn run_event(
    alloc: Global,
    told: &Told,
    subject: [u8; 32],
    run: &RunRow,
) -> Result<EventKind, AllocError>
    requires { GivesCommands told.now.read.now }
    ensures { IfOk result (λ kind. kind ≡ on.Run (run_told told.now.project.now told.now.change.now told.now.delta told.now.read.now subject run.now)) }
{
    let command = command_run(alloc, told, run)?;
    let path = named_copy(alloc, run.path.as_ref())?;
    let (before, after) = trees_of(alloc, run)?;
    Ok(EventKind::Run(RunEvent {
        during: part_of(told.change.phase),
        kind: run.kind,
        path,
        command,
        exit: run.exit,
        before,
        after,
        subject,
    }))
}

// Accepted, with an event for each run.
fn accept_runs(
    alloc: Global,
    call: &Call,
    when: u64,
    told: &Told,
    subject: [u8; 32],
    runs: &[RunRow],
) -> Result<Verdict, AllocError>
    requires { GivesCommands told.now.read.now }
    ensures { let event_told = run_told told.now.project.now told.now.change.now told.now.delta told.now.read.now subject in
        IfOk result (λ verdict. verdict ≡ Accept (map (event_by (maker_by call.now.command call.now.who when) call.now.command.change) (map on.Run (map event_told runs.now)))) }
{
    let maker = call.maker(when);
    let mut events = EventList::new(alloc);
    for run in runs {
        let what = run_event(alloc, told, subject, run)?;
        push_event(alloc, &mut events, &maker, call.command().change, what)?;
    }
    Ok(Verdict::Accept(events))
}

/// Accepted, with an event for each run of the change that the command saw.
pub(crate) fn accept_seen(
    alloc: Global,
    call: &Call,
    number: ChangeNo,
    change: &Change,
    when: u64,
    view: &View,
) -> Result<Verdict, AllocError>
    requires runs { makes_runs call.now.command.function ≡ true }
    requires names { call.now.command.change ≡ Some number }
    requires named { change_at call.now.stands number ≡ Some change.now }
    ensures { (places : Placing) (bytes : ℕ → List ℕ) → ShowsVersions (Some call.now.stands) bytes call.now.command call.now.who view.now →
        IfOk result (λ verdict. verdict ≡ Accept (events_of (given_to places call.now bytes when view.now))) }
{
    let state = call.state();
    let subject = subject(alloc, state, number, change, view)?;
    let read = config_of(alloc, state, number, change, view)?;
    let project = state.project();
    let delta = delta_of_run(state, change);
    let told = Told {
        project: &project.name,
        change,
        delta,
        read: &read,
    };
    let runs = view.runs.as_slice();
    accept_runs(alloc, call, when, &told, subject, runs)
}

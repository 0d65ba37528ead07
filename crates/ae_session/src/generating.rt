// The generator: a script is made, and its lines are done.
ghost use Rattle.std.specs.Prelude.{◌≡◌, ◌≤◌, ◌⊎◌, ◌∷◌, [], IfOk, IfErr};
ghost use Rattle.ae_outside.specs.Causes.{HasRisen};
ghost use Rattle.ae_outside.specs.State.{reads};
ghost use Rattle.ae_log.specs.Log.{Log};
ghost use Rattle.ae_log.specs.Observed.{observation};
ghost use Rattle.ae_words.specs.Formed.{IsFormed};
ghost use Rattle.ae_words.specs.declared.table.Function.TheVariants as function;
ghost use Rattle.ae_exec.specs.Performs.{LeavesDisk};
ghost use Rattle.ae_exec.specs.Stands.{StandsForLog};
ghost use Rattle.ae_generator.specs.Lines.{generated_text};
ghost use Rattle.ae_script.specs.Causes.{IsCaused};
ghost use Rattle.ae_script.specs.Lines.{stand};
ghost use Rattle.ae_script.specs.Manner.{is_done};
ghost use Rattle.ae_session.specs.Called.{ProjectDone};
ghost use Rattle.ae_base.specs.declared.outcome.Outcome.TheVariants.{Memory};
ghost use Rattle.ae_vault.specs.Disk.{DiskFailed};
ghost use Rattle.ae_telling.specs.Telling.{use_of_sink, IsOfCommand};
ghost use Rattle.ae_script.specs.Uses.{disks, sites};
ghost use Rattle.ae_session.specs.Summary.{FailsToRead, HasBuilds, IsSummary, SummaryTold, summary_text};

use crate::builds::count_builds;
use crate::stored::Stored;
use crate::summary::summary;
use ae_base::{Outcome, Refusal, Text, Want};
use ae_exec::load_project;
use ae_generator::generated;
use ae_outside::{Disk, Sink, Site};
use ae_script::{Manner, Standing, do_lines};
use ae_telling::{tell_memory, told_command};
use ae_types::State;
use ae_words::Command;
use std::alloc::{AllocError, Global};

/// How large a project is made: the number from which its texts are drawn, its changes, and the files of each.
#[derive(Clone, Copy)]
pub(crate) struct Size {
    pub start: u64,
    pub changes: u32,
    pub files: u32,
    ghost some_changes: { 1 ≤ changes },
    ghost few_changes: { changes ≤ 200 },
    ghost some_files: { 1 ≤ files },
    ghost few_files: { files ≤ 99 },
}

/// The size that a command names.
pub(crate) fn size_of(command: &Command) -> Size
    requires formed { IsFormed command.now }
    requires generates { command.now.function ≡ function.Generate }
    ensures { command.now.numbers ≡ result.start ∷ result.changes ∷ result.files ∷ [] }
{
    let numbers = command.numbers.as_slice();
    Size {
        start: numbers[0],
        changes: numbers[1] as u32,
        files: numbers[2] as u32,
    }
}

// The script of this size, and how many builds are in it.
fn script_of(alloc: Global, size: Size) -> Result<(Vec<u8>, u64), AllocError>
    ensures text { IfOk result (λ made. made.0.items ≡ generated_text size.start size.changes size.files) }
    ensures builds { IfOk result (λ made. HasBuilds made.0.items made.1) }
{
    let script = generated(alloc, size.start, size.changes, size.files)?;
    let builds = count_builds(alloc, &script)?;
    Ok((script, builds))
}

// The summary of this state, which is at its end here.
fn summary_of(alloc: Global, state: State, runs: u64) -> Result<Text, Outcome>
    ensures text { IfOk result (λ text. text ≡ summary_text state runs) }
    ensures fails { IfErr result (λ why. why ≡ Memory) }
{
    let text = summary(alloc, &state, runs);
    drop(state);
    match text {
        Ok(text) => Ok(Text::of(text)),
        Err(_) => Err(Outcome::Memory),
    }
}

// The summary of the project that stands on the disk.
fn read_summary<D: Disk>(alloc: Global, runs: u64, disk: &mut D) -> Result<Text, Outcome>
    ensures read { IfOk result (λ text. D.tells → (log : Log) → StandsForLog (reads (D.state disk.old)) log → IsSummary runs (observation log) text) }
    ensures fails { IfErr result (λ why. D.tells → (log : Log) → StandsForLog (reads (D.state disk.old)) log → FailsToRead (DiskFailed D.Disk disk.old disk.new) (observation log) why) }
    ensures causes { IfErr result (IsCaused (DiskFailed D.Disk disk.old disk.new) ⊥ ⊥ ⊥) }
    ensures of_command { IfErr result IsOfCommand }
    ensures disk { D.tells → LeavesDisk (D.state disk.old) (D.state disk.new) (Unit {0}) }
    ensures disk_faults { D.faults disk.old ≤ D.faults disk.new }
{
    match load_project(alloc, disk, Want::All) {
        Ok(Some(state)) => summary_of(alloc, state, runs),
        Ok(None) => Err(Outcome::Refused(Refusal::NoProject)),
        Err(why) => Err(why),
    }
}

// Tells the summary, or why there is none.
fn tell_summary<D: Disk, O: Sink, E: Sink>(
    alloc: Global,
    runs: u64,
    disk: &mut D,
    out: &mut O,
    err: &mut E,
) -> Outcome
    ensures told { D.tells → (log : Log) → StandsForLog (reads (D.state disk.old)) log →
        SummaryTold runs (observation log) (DiskFailed D.Disk disk.old disk.new)
        (use_of_sink O.Sink out.old out.new) (use_of_sink E.Sink err.old err.new) result }
    ensures causes { IsCaused (DiskFailed D.Disk disk.old disk.new) ⊥ ⊥
        (HasRisen (O.faults out.old) (O.faults out.new) ⊎ HasRisen (E.faults err.old) (E.faults err.new)) result }
    ensures disk { D.tells → LeavesDisk (D.state disk.old) (D.state disk.new) (Unit {0}) }
    ensures disk_faults { D.faults disk.old ≤ D.faults disk.new }
    ensures out_faults { O.faults out.old ≤ O.faults out.new }
    ensures err_faults { E.faults err.old ≤ E.faults err.new }
{
    match read_summary(alloc, runs, disk) {
        Ok(text) => told_command(alloc, Outcome::Done, text, false).tell_alone(out),
        Err(why) => {
            let nothing = Text::of(Vec::new(alloc));
            told_command(alloc, why, nothing, false).tell_alone(err)
        }
    }
}

fn is_done(outcome: &Outcome) -> bool
    ensures { result ≡ is_done outcome.now }
{
    matches!(outcome, Outcome::Done)
}

/// Makes a project: does the lines of the script of this size, up to the first that isn't done. Once all are, a summary is written to
/// `out`; else the message of the line that ended it to `err`.
pub(crate) fn generate<D: Disk, S: Site, O: Sink, E: Sink>(
    alloc: Global,
    size: Size,
    standing: Standing,
    disk: &mut D,
    site: &mut S,
    out: &mut O,
    err: &mut E,
) -> Outcome
    ensures done { let d = disks D.Disk in let s = sites S.Site in
        ProjectDone d s size.start size.changes size.files (stand d s standing.who standing.now disk.old site.old) disk.new site.new
        (use_of_sink O.Sink out.old out.new) (use_of_sink E.Sink err.old err.new) result }
    ensures out_faults { O.faults out.old ≤ O.faults out.new }
    ensures err_faults { E.faults err.old ≤ E.faults err.new }
{
    let (script, builds) = match script_of(alloc, size) {
        Ok(made) => made,
        Err(_) => return tell_memory(err),
    };
    let mut lines = Stored { rest: &script };
    let outcome = do_lines(
        alloc,
        Manner::Generator,
        standing,
        disk,
        site,
        &mut lines,
        err,
    );
    if is_done(&outcome) {
        tell_summary(alloc, builds, disk, out, err)
    } else {
        outcome
    }
}

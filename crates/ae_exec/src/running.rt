// The runs of a build or a test: the directories are made ready for them, and they are made.
ghost use Rattle.std.specs.Prelude.{◌≡◌, ◌≤◌, ◌++◌, ◌∷◌, [], ℕ, List, Some, All, map, true, Ok, IfOk, IfErr, IsErrOf, OnOk};
ghost use Rattle.ae_base.specs.Rows.{paths_of, Ascends};
ghost use Rattle.ae_outside.specs.Causes.{Counted};
ghost use Rattle.ae_outside.specs.State.{reads};
ghost use Rattle.ae_types.specs.Trees.{TreeRow, tree_path};
ghost use Rattle.ae_vault.specs.Disk.{DiskFailed, IsCleanDisk, OnlyReads, files_of};
ghost use Rattle.ae_dirs.specs.declared.error.DirsError.{DirsError};
ghost use Rattle.ae_dirs.specs.Runs.{IsGroup, MakesByteRuns};
ghost use Rattle.ae_dirs.specs.Reads.{tracked_in};
ghost use Rattle.ae_evidence.specs.declared.runs.Job.{Job};
ghost use Rattle.ae_evidence.specs.Directories.{dirs_after};
ghost use Rattle.ae_machine.specs.Call.{given_of};
ghost use Rattle.ae_machine.specs.Fits.{makes_runs};
ghost use Rattle.ae_machine.specs.Jobs.{AnswersJobs};
ghost use Rattle.ae_conf.specs.Values.{IsCommand};
ghost use Rattle.ae_machine.specs.Sight.{with_bytes};
ghost use Rattle.ae_machine.specs.Space.{placing};
ghost use Rattle.ae_machine.specs.Versions.{ShowsVersions, rows_based, rows_refreshed};
ghost use Rattle.ae_exec.specs.Bytes.{AreThere, HaveBytes, rows_at};
ghost use Rattle.ae_exec.specs.Directories.{AreOwn, ChangesThenRuns};
ghost use Rattle.ae_exec.specs.Endings.{StopsReading};
ghost use Rattle.ae_exec.specs.Reading.{AreKept, IsInside, based_for, refreshed_for, versions_for_runs, versions_of};
ghost use Rattle.ae_exec.specs.Runs.{AreForRunsOf, HaveRun, IsConfigured};

use crate::stop::Stop;
use crate::version::read_version;
use ae_base::{Path, Snapshot, Text};
use ae_dirs::{DirsError, change_dirs, run_group};
use ae_evidence::{DirChangeList, FileList, JobList, RunRowList};
use ae_machine::{View, jobs_asked, rows_based, rows_refreshed, run_changes, tracked};
use ae_outside::{Dir, Disk, Site};
use ae_types::{State, TreeRow};
use ae_words::Command;
use std::alloc::{AllocError, Global};

/// What the runs of a command are made of: the changes of directories before them, the files that they are to leave as they are,
/// and the runs.
#[derive(Drop)]
pub(crate) struct RunPlan {
    pub changes: DirChangeList,
    pub tracked: Snapshot,
    pub jobs: JobList,
}

/// Puts a file with these bytes, or no file, after the others.
pub(crate) fn put_file(
    alloc: Global,
    files: &mut FileList,
    path: &Path,
    bytes: Option<Text>,
) -> Result<(), AllocError>
    ensures { OnOk result (files.new ≡ files.old ++ (path.now, bytes) ∷ []) }
{
    files.push((path.copy(alloc)?, bytes))?;
    Ok(())
}

// Puts a file with these bytes after the others. Copies of it share them.
fn put_bytes(
    alloc: Global,
    files: &mut FileList,
    path: &Path,
    bytes: Vec<u8>,
) -> Result<(), AllocError>
    ensures { OnOk result (files.new ≡ files.old ++ (path.now, Some bytes.items) ∷ []) }
{
    let text = Text::shared(alloc, bytes)?;
    put_file(alloc, files, path, Some(text))
}

// Puts the file of a row after the others, with its bytes.
fn push_row<D: Disk>(
    alloc: Global,
    disk: &mut D,
    files: &mut FileList,
    row: &TreeRow,
) -> Result<(), Stop>
    requires clean { IsCleanDisk D.Disk disk.old }
    requires inside { IsInside row.now.version }
    ensures pushed { OnOk result (D.tells → files.new ≡ files.old ++ rows_at (files_of D.Disk disk.old) (row.now ∷ [])) }
    ensures path { OnOk result (paths_of files.new ≡ paths_of files.old ++ row.now.path ∷ []) }
    ensures there { OnOk result (AreThere files.old → AreThere files.new) }
    ensures kept { OnOk result (D.tells → AreKept (files_of D.Disk disk.old) (versions_of (row.now ∷ []))) }
    ensures same { OnlyReads D.Disk disk.old disk.new }
    ensures stopped { IfErr result (λ stop. StopsReading D.tells (reads (D.state disk.old)) (versions_of (row.now ∷ [])) (DiskFailed D.Disk disk.old disk.new) stop) }
    ensures later { D.faults disk.old ≤ D.faults disk.new }
{
    let bytes = read_version(alloc, disk, &row.version)?;
    put_bytes(alloc, files, &row.path, bytes)?;
    Ok(())
}

/// The files of rows, with their bytes.
pub(crate) fn files_of_rows<D: Disk>(
    alloc: Global,
    disk: &mut D,
    rows: &[TreeRow],
) -> Result<FileList, Stop>
    requires clean { IsCleanDisk D.Disk disk.old }
    requires inside { All (λ (row : TreeRow). IsInside row.version) rows.now }
    ensures rows { IfOk result (λ files. D.tells → files ≡ rows_at (files_of D.Disk disk.old) rows.now) }
    ensures paths { IfOk result (λ files. paths_of files ≡ map tree_path rows.now) }
    ensures there { IfOk result AreThere }
    ensures kept { OnOk result (D.tells → AreKept (files_of D.Disk disk.old) (versions_of rows.now)) }
    ensures same { OnlyReads D.Disk disk.old disk.new }
    ensures stopped { IfErr result (λ stop. StopsReading D.tells (reads (D.state disk.old)) (versions_of rows.now) (DiskFailed D.Disk disk.old disk.new) stop) }
    ensures later { D.faults disk.old ≤ D.faults disk.new }
{
    let mut files = FileList::new(alloc);
    for row in rows {
        push_row(alloc, disk, &mut files, row)?;
    }
    Ok(files)
}

/// Changes the directories, and then makes the runs, one after another, up to the first that changes tracked files.
pub(crate) fn make_runs<S: Site>(
    alloc: Global,
    site: &mut S,
    dir: Dir,
    plan: &RunPlan,
) -> Result<RunRowList, DirsError>
    requires commands { All (λ (job : Job). IsCommand job.command) plan.now.jobs }
    ensures ran { IfOk result (λ rows. S.tells → plan.now.tracked ≡ tracked_in (dirs_after plan.now.changes (S.state site.old).trees dir) plan.now.tracked → HaveRun dir plan.now.changes (paths_of plan.now.tracked) plan.now.jobs rows (S.state site.old) (S.state site.new)) }
    ensures whole { IfOk result (λ rows. IsGroup plan.now.tracked plan.now.jobs rows) }
    // Where it isn't that the directories failed, the changes were made, and then nothing but the runs changed any directory.
    ensures only { S.tells → (IsErrOf result DirsError.SiteFault → ⊥) → ChangesThenRuns plan.now.changes (S.state site.old) (S.state site.new) }
    // However it ends, the runs that it made are of bytes.
    ensures bytes { S.tells → MakesByteRuns (S.state site.old) (S.state site.new) }
    ensures cause { Counted (S.faults site.old) (S.faults site.new) (IsErrOf result DirsError.SiteFault) }
{
    change_dirs(alloc, site, plan.changes.as_slice())?;
    run_group(alloc, site, dir, plan.jobs.as_slice(), &plan.tracked)
}

// The runs of an accepted command, each with its command.
fn accepted_jobs(
    alloc: Global,
    state: &State,
    command: &Command,
    view: &View,
) -> Result<JobList, AllocError>
    requires runs { makes_runs command.now.function ≡ true }
    requires accepted { IsConfigured state.now command.now view.now }
    ensures jobs { IfOk result (λ jobs. (bytes : ℕ → List ℕ) (who : List ℕ) (when : ℕ) → ShowsVersions (Some state.now) bytes command.now who view.now → AnswersJobs (given_of placing state.now bytes command.now who when view.now) (Ok jobs)) }
    ensures commands { IfOk result (λ jobs. All (λ (job : Job). IsCommand job.command) jobs) }
{
    match jobs_asked(alloc, state, command, view)? {
        Ok(jobs) => Ok(jobs),
        Err(_) => unreachable!(),
    }
}

// What the runs of an accepted command are made of, with the files that are put into the directories before them.
fn run_plan(
    alloc: Global,
    state: &State,
    command: &Command,
    view: &View,
    refreshed: FileList,
    based: FileList,
) -> Result<RunPlan, AllocError>
    requires runs { makes_runs command.now.function ≡ true }
    requires accepted { IsConfigured state.now command.now view.now }
    requires paths { paths_of based ≡ map tree_path (based_for command.now state.now) }
    ensures are { IfOk result (λ plan. (bytes : ℕ → List ℕ) (who : List ℕ) (when : ℕ) → refreshed ≡ with_bytes bytes (refreshed_for command.now state.now) →
        based ≡ with_bytes bytes (based_for command.now state.now) → AreForRunsOf state.now command.now view.now bytes who when plan.changes plan.tracked plan.jobs) }
    ensures commands { IfOk result (λ plan. All (λ (job : Job). IsCommand job.command) plan.jobs) }
    ensures own { IfOk result (λ plan. AreOwn command.now plan.changes) }
    ensures ascends { IfOk result (λ plan. Ascends plan.tracked) }
{
    let tracked = tracked(alloc, state, command, view, based)?;
    let changes = run_changes(alloc, state, command, refreshed, &tracked)?;
    let jobs = accepted_jobs(alloc, state, command, view)?;
    Ok(RunPlan {
        changes,
        tracked,
        jobs,
    })
}

// The files that are put into the develop directory before the runs, with their bytes.
fn refreshed_files<D: Disk>(
    alloc: Global,
    state: &State,
    disk: &mut D,
    command: &Command,
) -> Result<FileList, Stop>
    requires clean { IsCleanDisk D.Disk disk.old }
    ensures rows { IfOk result (λ files. D.tells → files ≡ rows_at (files_of D.Disk disk.old) (refreshed_for command.now state.now)) }
    ensures kept { OnOk result (D.tells → AreKept (files_of D.Disk disk.old) (versions_of (refreshed_for command.now state.now))) }
    ensures same { OnlyReads D.Disk disk.old disk.new }
    ensures stopped { IfErr result (λ stop. StopsReading D.tells (reads (D.state disk.old)) (versions_of (refreshed_for command.now state.now)) (DiskFailed D.Disk disk.old disk.new) stop) }
    ensures later { D.faults disk.old ≤ D.faults disk.new }
{
    state.note_sound();
    let rows = rows_refreshed(alloc, state, command)?;
    files_of_rows(alloc, disk, rows.as_slice())
}

// The files that are put into the base directory before the runs, with their bytes.
fn based_files<D: Disk>(
    alloc: Global,
    state: &State,
    disk: &mut D,
    command: &Command,
) -> Result<FileList, Stop>
    requires clean { IsCleanDisk D.Disk disk.old }
    ensures rows { IfOk result (λ files. D.tells → files ≡ rows_at (files_of D.Disk disk.old) (based_for command.now state.now)) }
    ensures paths { IfOk result (λ files. paths_of files ≡ map tree_path (based_for command.now state.now)) }
    ensures kept { OnOk result (D.tells → AreKept (files_of D.Disk disk.old) (versions_of (based_for command.now state.now))) }
    ensures same { OnlyReads D.Disk disk.old disk.new }
    ensures stopped { IfErr result (λ stop. StopsReading D.tells (reads (D.state disk.old)) (versions_of (based_for command.now state.now)) (DiskFailed D.Disk disk.old disk.new) stop) }
    ensures later { D.faults disk.old ≤ D.faults disk.new }
{
    state.note_sound();
    let rows = rows_based(alloc, state, command)?;
    files_of_rows(alloc, disk, rows.as_slice())
}

/// The runs of a command that is accepted, made ready: the versions that are put into the directories are read, and each run gets
/// its command.
pub(crate) fn ready<D: Disk>(
    alloc: Global,
    state: &State,
    disk: &mut D,
    command: &Command,
    view: &View,
) -> Result<RunPlan, Stop>
    requires clean { IsCleanDisk D.Disk disk.old }
    requires runs { makes_runs command.now.function ≡ true }
    requires accepted { IsConfigured state.now command.now view.now }
    ensures are { IfOk result (λ plan. D.tells → (bytes : ℕ → List ℕ) (who : List ℕ) (when : ℕ) → HaveBytes (files_of D.Disk disk.old) (Some state.now) bytes →
        AreForRunsOf state.now command.now view.now bytes who when plan.changes plan.tracked plan.jobs) }
    ensures commands { IfOk result (λ plan. All (λ (job : Job). IsCommand job.command) plan.jobs) }
    ensures own { IfOk result (λ plan. AreOwn command.now plan.changes) }
    ensures ascends { IfOk result (λ plan. Ascends plan.tracked) }
    ensures kept { OnOk result (D.tells → AreKept (files_of D.Disk disk.old) (versions_for_runs command.now state.now)) }
    ensures same { OnlyReads D.Disk disk.old disk.new }
    ensures stopped { IfErr result (λ stop. StopsReading D.tells (reads (D.state disk.old)) (versions_for_runs command.now state.now) (DiskFailed D.Disk disk.old disk.new) stop) }
    ensures later { D.faults disk.old ≤ D.faults disk.new }
{
    let refreshed = refreshed_files(alloc, state, disk, command)?;
    let based = based_files(alloc, state, disk, command)?;
    Ok(run_plan(alloc, state, command, view, refreshed, based)?)
}

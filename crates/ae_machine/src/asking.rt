// What a build or a test asks of the directories and of the versions that stand.
ghost use Rattle.std.specs.Prelude.{◌≡◌, ◌<◌, ℕ, List, Some, true, not, length, filter, IfOk};
ghost use Rattle.std.specs.List.{list_any};
ghost use Rattle.ae_types.specs.declared.change.ChangeFile.{ChangeFile};
ghost use Rattle.ae_types.specs.Found.{change_at, file_path, has_file};
ghost use Rattle.ae_types.specs.Phases.{is_integrating};
ghost use Rattle.ae_types.specs.Ordered.{Ascends};
ghost use Rattle.ae_types.specs.Trees.{TreeRow, baseline_of, tree_row};
ghost use Rattle.ae_base.specs.Limits.{most_deltas};
ghost use Rattle.ae_base.specs.Rows.{text_cmp};
ghost use Rattle.ae_words.specs.Meaning.{is_config};
ghost use Rattle.ae_machine.specs.Call.{Placing, call_of, change_of, given_of};
ghost use Rattle.ae_machine.specs.Called.{files_dir};
ghost use Rattle.ae_machine.specs.Fits.{makes_runs, paths_asked, reads_files};
ghost use Rattle.ae_machine.specs.Freezing.{first_content_refused};
ghost use Rattle.ae_machine.specs.Jobs.{dir_of_base, dir_of_files};
ghost use Rattle.ae_machine.specs.Real.{dir_of_runs};
ghost use Rattle.ae_files.specs.InTree.{row_at};
ghost use Rattle.ae_machine.specs.Sight.{config_below, config_path, has_config, paths_read};
ghost use Rattle.ae_machine.specs.Versions.{config_version, files_refused, rows_based, rows_refreshed};

use crate::View;
use crate::call::change_of;
use crate::reading::{contents_refused, paths_read};
use crate::runs::{delta_of_run, is_integrating, kind_of, last_delta};
use ae_base::{ChangeNo, Kind, PathList, Refusal};
use ae_files::tree_at;
use ae_outside::Dir;
use ae_types::{Change, ChangeFile, FileRow, State, TreeRow, TreeRows, entry_at, file_in, row_in};
use ae_words::{Command, Function};
use std::alloc::{AllocError, Global};

fn reads_files(function: Function) -> bool
    ensures { result ≡ reads_files function }
{
    matches!(
        function,
        Function::Build | Function::Test | Function::DevelopEnd
    )
}

/// Whether a function makes runs.
pub fn makes_runs(function: Function) -> bool
    ensures { result ≡ makes_runs function }
{
    matches!(function, Function::Build | Function::Test)
}

// ---- where it reads and runs

/// The paths whose files the command reads.
pub fn paths_asked(alloc: Global, state: &State, command: &Command) -> Result<PathList, AllocError>
    ensures { (who : List ℕ) → let call = call_of state.now command.now who in
        IfOk result (λ paths. paths ≡ paths_asked call (change_of call)) }
{
    let Some(number) = command.change else {
        return Ok(PathList::new(alloc));
    };
    match state.change(number) {
        Some(change) if reads_files(command.function) => {
            Ok(paths_read(alloc, state, number, change)?)
        }
        _ => Ok(PathList::new(alloc)),
    }
}

// The directory of the change's files.
fn dir_of_change(state: &State, change: &Change) -> Dir
    requires { is_integrating change.now.phase ≡ true → length state.now.project.deltas < most_deltas }
    ensures { (command : _) (who : List ℕ) → result ≡ files_dir (call_of state.now command who) change.now }
{
    if is_integrating(change.phase) {
        Dir::Integrate(delta_of_run(state, change))
    } else {
        Dir::Develop(change.number)
    }
}

/// The directory in which it reads them.
pub fn files_dir(state: &State, command: &Command) -> Dir
    ensures { (who : List ℕ) → let call = call_of state.now command.now who in result ≡ dir_of_files call (change_of call) }
{
    state.note_sound();
    match change_of(state, command) {
        Some(change) => dir_of_change(state, change),
        None => Dir::Here,
    }
}

// The base directory of the change.
fn base_dir(state: &State, command: &Command) -> Dir
    ensures { (who : List ℕ) → let call = call_of state.now command.now who in result ≡ dir_of_base (change_of call) }
{
    match change_of(state, command) {
        Some(change) => Dir::Base(change.number),
        None => Dir::Here,
    }
}

/// The directory in which its runs are made.
pub fn runs_dir(state: &State, command: &Command) -> Dir
    ensures { (who : List ℕ) → let call = call_of state.now command.now who in result ≡ dir_of_runs call (change_of call) }
{
    match kind_of(command) {
        Kind::BaselineTest => base_dir(state, command),
        Kind::Build => files_dir(state, command),
        Kind::Test => files_dir(state, command),
        Kind::RegressionTest => files_dir(state, command),
    }
}

// ---- the files that it reads

// Why the files that are read for the change in development are refused.
fn kept_refused(
    alloc: Global,
    state: &State,
    number: ChangeNo,
    change: &Change,
    view: &View,
) -> Result<Option<Refusal>, AllocError>
    requires named { change_at state.now number ≡ Some change.now }
    ensures { (command : _) (who : List ℕ) → IfOk result (λ refusal. refusal ≡ first_content_refused view.now (paths_read (call_of state.now command who) change.now)) }
{
    let paths = paths_read(alloc, state, number, change)?;
    contents_refused(alloc, view, paths.as_slice())
}

/// Why the files that it reads in development are refused.
pub fn files_refused(
    alloc: Global,
    state: &State,
    command: &Command,
    view: &View,
) -> Result<Option<Refusal>, AllocError>
    ensures { (places : Placing) (bytes : ℕ → List ℕ) (who : List ℕ) (when : ℕ) →
        IfOk result (λ refusal. refusal ≡ files_refused (given_of places state.now bytes command.now who when view.now)) }
{
    let Some(number) = command.change else {
        return Ok(None);
    };
    match state.change(number) {
        Some(change) if !is_integrating(change.phase) => {
            kept_refused(alloc, state, number, change, view)
        }
        _ => Ok(None),
    }
}

// ---- the versions that it asks for

// The baseline's aegis.conf.
fn baseline_config(alloc: Global, state: &State) -> Result<Option<TreeRow>, AllocError>
    ensures { IfOk result (λ row. row ≡ row_at (baseline_of state.now) config_path) }
{
    let delta = state.project().deltas.len();
    let Some(row) = row_in(state.files(), b"aegis.conf") else {
        return Ok(None);
    };
    tree_row(alloc, row, delta)
}

// The file that a row has at a delta.
fn tree_row(alloc: Global, row: &FileRow, delta: usize) -> Result<Option<TreeRow>, AllocError>
    ensures { IfOk result (λ made. made ≡ tree_row delta row.now) }
{
    let Some(entry) = entry_at(row.past.as_slice(), delta) else {
        return Ok(None);
    };
    match entry.version {
        Some(version) => Ok(Some(TreeRow {
            path: row.path.copy(alloc)?,
            usage: entry.usage,
            version,
        })),
        None => Ok(None),
    }
}

fn is_config(file: &ChangeFile) -> bool
    ensures { result ≡ is_config file.now.path }
{
    file.path.bytes() == b"aegis.conf".as_slice()
}

fn has_config_in(files: &[ChangeFile]) -> bool
    ensures { result ≡ list_any (λ (file : ChangeFile). is_config file.path) files.now }
{
    files.iter().any(|file| is_config(file))
}

// The change has a row for aegis.conf.
fn has_config(change: &Change) -> bool
    ensures { result ≡ has_config change.now }
{
    has_config_in(change.files.as_slice())
}

// The baseline's aegis.conf, where the commands are taken from it: in development, where the change has no row for it.
fn config_below(
    alloc: Global,
    state: &State,
    change: &Change,
) -> Result<Option<TreeRow>, AllocError>
    ensures { (command : _) (who : List ℕ) → IfOk result (λ row. row ≡ config_below (call_of state.now command who) change.now) }
{
    if is_integrating(change.phase) || has_config(change) {
        Ok(None)
    } else {
        baseline_config(alloc, state)
    }
}

/// The baseline's aegis.conf, where the commands of its runs are taken from it.
pub fn config_version(
    alloc: Global,
    state: &State,
    command: &Command,
) -> Result<Option<TreeRow>, AllocError>
    ensures { (who : List ℕ) → let call = call_of state.now command.now who in
        IfOk result (λ row. row ≡ config_version call (change_of call)) }
{
    match change_of(state, command) {
        Some(change) if makes_runs(command.function) => config_below(alloc, state, change),
        _ => Ok(None),
    }
}

// The baseline's files outside the change.
fn rows_outside(alloc: Global, state: &State, change: &Change) -> Result<TreeRows, AllocError>
    requires { Ascends text_cmp file_path change.now.files }
    ensures { IfOk result (λ rows. rows ≡ filter (λ (row : TreeRow). not (has_file change.now row.path)) (baseline_of state.now)) }
{
    let files = change.files.as_slice();
    let mut rows = tree_at(alloc, state, last_delta(state))?.into_vec();
    rows.retain(|row| file_in(files, row.path.bytes()).is_none());
    Ok(TreeRows::of(rows))
}

/// The versions that are put into the develop directory before its runs.
pub fn rows_refreshed(
    alloc: Global,
    state: &State,
    command: &Command,
) -> Result<TreeRows, AllocError>
    ensures { (who : List ℕ) → let call = call_of state.now command.now who in
        IfOk result (λ rows. rows ≡ rows_refreshed call (change_of call)) }
{
    state.note_sound();
    match change_of(state, command) {
        Some(change) if !is_integrating(change.phase) => rows_outside(alloc, state, change),
        _ => Ok(TreeRows::new(alloc)),
    }
}

/// The versions that the base directory is filled with before its runs.
pub fn rows_based(alloc: Global, state: &State, command: &Command) -> Result<TreeRows, AllocError>
    ensures { (who : List ℕ) → let call = call_of state.now command.now who in
        IfOk result (λ rows. rows ≡ rows_based call (change_of call)) }
{
    match (change_of(state, command), kind_of(command)) {
        (Some(_), Kind::BaselineTest) => tree_at(alloc, state, last_delta(state)),
        _ => Ok(TreeRows::new(alloc)),
    }
}

// The files that the runs of a build or a test are to leave as they are, and what is made of the directories before them.
ghost use Rattle.std.specs.Prelude.{◌≡◌, ◌++◌, ◌∷◌, [], ℕ, List, Some, if◌then◌else◌, map, true, IfOk, OnOk};
ghost use Rattle.std.specs.List.{list_any};
ghost use Rattle.std.specs.Str.{bytes_eq};
ghost use Rattle.ae_base.specs.Rows.{Ascends, paths_of};
ghost use Rattle.ae_types.specs.Runs.{tests_of};
ghost use Rattle.ae_types.specs.Found.{change_at};
ghost use Rattle.ae_types.specs.Phases.{is_integrating};
ghost use Rattle.ae_types.specs.Trees.{tree_path};
ghost use Rattle.ae_outside.specs.declared.dir.Dir.TheVariants.{Base, Develop};
ghost use Rattle.ae_words.specs.declared.command.Command.{Command};
ghost use Rattle.ae_machine.specs.declared.view.View.{View};
ghost use Rattle.ae_machine.specs.Call.{Placing, call_of, change_of, given_of};
ghost use Rattle.ae_machine.specs.Directories.{dir_changes};
ghost use Rattle.ae_evidence.specs.Directories.{dir_of, bytes_of};
ghost use Rattle.ae_evidence.specs.declared.directories.DirChange.TheVariants.{Fill, Put};
ghost use Rattle.ae_machine.specs.Fits.{makes_runs, tracked_in};
ghost use Rattle.ae_machine.specs.Sight.{only_tests, overlaid, paths_read, read_at, with_bytes};
ghost use Rattle.ae_machine.specs.Versions.{is_test_at, removed_among, rows_based, rows_refreshed};

use crate::View;
use crate::call::change_of;
use crate::reading::{paths_read, push_row, text_copy, tree_read};
use crate::runs::{is_integrating, kind_of};
use ae_base::{Action, ChangeNo, Kind, Path, Snapshot, Text, Usage};
use ae_evidence::{DirChange, DirChangeList, FileList};
use ae_outside::Dir;
use ae_types::{Change, ChangeFile, State};
use ae_words::Command;
use std::alloc::{AllocError, Global};

// Whether the file is a test of this path that the change doesn't remove.
fn is_test_at(file: &ChangeFile, path: &Path) -> bool
    ensures { result ≡ is_test_at path.now file.now }
{
    match (file.usage, file.action) {
        (Usage::Test, Action::Create | Action::Modify) => path.bytes() == file.path.bytes(),
        _ => false,
    }
}

// Whether one of the files is a test of this path.
fn has_test_at(files: &[ChangeFile], path: &Path) -> bool
    ensures { result ≡ list_any (is_test_at path.now) files.now }
{
    files.iter().any(|file| is_test_at(file, path))
}

// Whether the path is one of a test of the change.
fn is_own_test(change: &Change, path: &Path) -> bool
    ensures { result ≡ list_any (bytes_eq path.now) (tests_of change.now) }
{
    has_test_at(change.files.as_slice(), path)
}

// Puts a row over a tree, where it is of a test of the change.
fn put_test(
    alloc: Global,
    tree: &mut Snapshot,
    change: &Change,
    row: &(Path, Option<Text>),
) -> Result<(), AllocError>
    ensures { OnOk result (tree.new ≡ overlaid tree.old (only_tests change.now (row.now ∷ []))) }
{
    if is_own_test(change, &row.0) {
        tree.put(row.0.copy(alloc)?, text_copy(alloc, row.1.as_ref())?)
    } else {
        Ok(())
    }
}

// Puts the rows of the change's tests over a tree.
fn put_tests(
    alloc: Global,
    tree: &mut Snapshot,
    change: &Change,
    rows: &[(Path, Option<Text>)],
) -> Result<(), AllocError>
    ensures { OnOk result (tree.new ≡ overlaid tree.old (only_tests change.now rows.now)) }
{
    for row in rows {
        put_test(alloc, tree, change, row)?;
    }
    Ok(())
}

// What was read of the files that the change reads.
fn files_read(
    alloc: Global,
    state: &State,
    number: ChangeNo,
    change: &Change,
    view: &View,
) -> Result<Snapshot, AllocError>
    requires named { change_at state.now number ≡ Some change.now }
    ensures { (command : Command) (who : List ℕ) → IfOk result (λ tree. tree ≡ map (λ path. (path, bytes_of (read_at view.now path))) (paths_read (call_of state.now command who) change.now)) }
{
    let paths = paths_read(alloc, state, number, change)?;
    tree_read(alloc, view, paths.as_slice())
}

// These files, with what was read of the change's tests over them.
fn with_tests(
    alloc: Global,
    change: &Change,
    based: FileList,
    read: &Snapshot,
) -> Result<Snapshot, AllocError>
    requires { Ascends based }
    ensures { IfOk result (λ tree. tree ≡ overlaid based (only_tests change.now read.now)) }
{
    let mut tree = Snapshot::of(based.into_vec());
    put_tests(alloc, &mut tree, change, read.as_slice())?;
    Ok(tree)
}

/// The files that its runs are to leave as they are. `based` are the versions of `rows_based`, with their bytes.
pub fn tracked(
    alloc: Global,
    state: &State,
    command: &Command,
    view: &View,
    based: FileList,
) -> Result<Snapshot, AllocError>
    requires paths { (who : List ℕ) → let call = call_of state.now command.now who in
        paths_of based ≡ map tree_path (rows_based call (change_of call)) }
    ensures { (places : Placing) (bytes : ℕ → List ℕ) (who : List ℕ) (when : ℕ) →
        let given = given_of places state.now bytes command.now who when view.now in
        based ≡ with_bytes bytes (rows_based given.call (change_of given.call)) →
        IfOk result (λ tree. tree ≡ tracked_in given (change_of given.call)) }
{
    state.note_sound();
    let Some(number) = command.change else {
        drop(based);
        return Ok(Snapshot::new(alloc));
    };
    let Some(change) = state.change(number) else {
        drop(based);
        return Ok(Snapshot::new(alloc));
    };
    let read = files_read(alloc, state, number, change, view)?;
    match kind_of(command) {
        Kind::BaselineTest => with_tests(alloc, change, based, &read),
        Kind::Build => Ok(read),
        Kind::Test => Ok(read),
        Kind::RegressionTest => Ok(read),
    }
}

// Adds no file at the path of a file that is removed.
fn push_removed(
    alloc: Global,
    rows: &mut Vec<(Path, Option<Text>)>,
    file: &ChangeFile,
) -> Result<(), AllocError>
    ensures { OnOk result (rows.new.items ≡ rows.old.items ++ removed_among (file.now ∷ [])) }
{
    match file.action {
        Action::Remove => push_row(alloc, rows, &file.path, None),
        _ => Ok(()),
    }
}

// No file at each path that the change removes.
fn removed_rows(
    alloc: Global,
    files: &[ChangeFile],
) -> Result<Vec<(Path, Option<Text>)>, AllocError>
    ensures { IfOk result (λ rows. rows.items ≡ removed_among files.now) }
{
    let mut rows = Vec::new(alloc);
    for file in files {
        push_removed(alloc, &mut rows, file)?;
    }
    Ok(rows)
}

// The develop directory is refreshed.
fn refresh(alloc: Global, change: &Change, refreshed: FileList) -> Result<DirChange, AllocError>
    ensures { IfOk result (λ made. made ≡ Put (Develop change.now.number) (removed_among change.now.files ++ refreshed)) }
{
    let mut rows = removed_rows(alloc, change.files.as_slice())?;
    let mut refreshed = refreshed.into_vec();
    rows.append(&mut refreshed)?;
    Ok(DirChange::Put(Dir::Develop(change.number), FileList::of(rows)))
}

// The develop directory is refreshed, unless the change is being integrated.
fn before_runs(
    alloc: Global,
    change: &Change,
    refreshed: FileList,
) -> Result<DirChangeList, AllocError>
    ensures { let rows = removed_among change.now.files ++ refreshed in
        IfOk result (λ changes. changes ≡ if is_integrating change.now.phase then [] else Put (Develop change.now.number) rows ∷ []) }
{
    let mut changes = DirChangeList::new(alloc);
    if is_integrating(change.phase) {
        drop(refreshed);
        return Ok(changes);
    }
    changes.push(refresh(alloc, change, refreshed)?)?;
    Ok(changes)
}

fn tree_copy(alloc: Global, tree: &Snapshot) -> Result<FileList, AllocError>
    ensures { IfOk result (λ copy. copy ≡ tree.now) }
{
    let mut rows = Vec::new(alloc);
    for row in tree.as_slice() {
        push_row(alloc, &mut rows, &row.0, row.1.as_ref())?;
    }
    Ok(FileList::of(rows))
}

// The base directory is filled with the tree.
fn fill_base(
    alloc: Global,
    changes: &mut DirChangeList,
    change: &Change,
    tree: &Snapshot,
) -> Result<(), AllocError>
    ensures { OnOk result (changes.new ≡ changes.old ++ Fill (Base change.now.number) tree.now ∷ []) }
{
    let files = tree_copy(alloc, tree)?;
    changes.push(DirChange::Fill(Dir::Base(change.number), files))
}

/// What it makes of the directories before its runs. `refreshed` are the versions of `rows_refreshed`, with their bytes;
/// `tracked` are the files that its runs are to leave as they are.
pub fn run_changes(
    alloc: Global,
    state: &State,
    command: &Command,
    refreshed: FileList,
    tracked: &Snapshot,
) -> Result<DirChangeList, AllocError>
    requires runs { makes_runs command.now.function ≡ true }
    ensures changes { (places : Placing) (bytes : ℕ → List ℕ) (who : List ℕ) (when : ℕ) (view : View) →
        let given = given_of places state.now bytes command.now who when view in
        refreshed ≡ with_bytes bytes (rows_refreshed given.call (change_of given.call)) →
        tracked.now ≡ tracked_in given (change_of given.call) →
        IfOk result (λ changes. changes ≡ dir_changes given) }
    // Whatever bytes they have, they are of the same directories.
    ensures dirs { (places : Placing) (bytes : ℕ → List ℕ) (who : List ℕ) (when : ℕ) (view : View) →
        let given = given_of places state.now bytes command.now who when view in
        IfOk result (λ changes. map dir_of changes ≡ map dir_of (dir_changes given)) }
{
    let Some(change) = change_of(state, command) else {
        drop(refreshed);
        return Ok(DirChangeList::new(alloc));
    };
    let mut changes = before_runs(alloc, change, refreshed)?;
    if kind_of(command) == Kind::BaselineTest {
        fill_base(alloc, &mut changes, change, tracked)?;
    }
    Ok(changes)
}

// The least path that would clash with another one, where the files were clear before the last path of a command: a clash
// has that path in it. So only the folders on the way to it are looked up, and of the other paths only those that lie in it
// are gone over: they stand together, and are found by binary search. Of two paths of the project that don't clash, none
// lies in both, so that for all clear paths of one command no row is gone over twice.
ghost use Rattle.std.specs.Prelude.{◌≡◌, ◌≤◌, [], drop, length, option_copied, true};
ghost use Rattle.std.specs.Ordering.{is_eq, is_lt};
ghost use Rattle.ae_types.specs.Found.{file_path, row_path};
ghost use Rattle.ae_types.specs.Ordered.{Ascends};
ghost use Rattle.ae_base.specs.Rows.{text_cmp};
ghost use Rattle.ae_machine.specs.Filing.{are_clear};
ghost use Rattle.ae_machine.specs.LeastClash.{row_stays};
ghost use Rattle.ae_machine.specs.PathClash.{IsClearBut, any_in_folder, file_stays, from_folder, holds_paths, path_clash, place_to};
ghost use Rattle.ae_machine.specs.Refused.{Answers};

use crate::clashes::{are_clear, folder_there, is_removed, path_there, row_stays};
use crate::refused::Refused;
use ae_base::{Path, Refusal};
use ae_types::{ChangeFile, FileRow, State};
use std::alloc::Global;
use std::cmp::Ordering;

// Where what follows the folder stands to what lies in it.
fn place_of_rest(rest: &[u8]) -> Ordering
    ensures { result ≡ place_to [] rest.now }
{
    match rest {
        [] => Ordering::Less,
        [first, ..] => first.cmp(&b'/'),
    }
}

// Where the path stands to those that lie in the folder: before them, among them or after them.
fn place_to(path: &[u8], folder: &[u8]) -> Ordering
    ensures { result ≡ place_to folder.now path.now }
{
    match path.strip_prefix(folder) {
        Some(rest) => place_of_rest(rest),
        None => path.cmp(folder),
    }
}

fn is_before(path: &Path, folder: &[u8]) -> bool
    ensures { result ≡ is_lt (place_to folder.now path.now) }
{
    place_to(path.bytes(), folder).is_lt()
}

fn is_inside(path: &Path, folder: &[u8]) -> bool
    ensures { result ≡ is_eq (place_to folder.now path.now) }
{
    place_to(path.bytes(), folder).is_eq()
}

// The place of the first row that doesn't stand before those in the folder.
fn first_row(rows: &[FileRow], folder: &[u8]) -> usize
    requires { Ascends text_cmp row_path rows.now }
    ensures bound { result ≤ length rows.now }
    ensures behind { drop result rows.now ≡ from_folder row_path folder.now rows.now }
{
    rows.partition_point(|row| is_before(&row.path, folder))
}

// The same of the files of a change.
fn first_file(files: &[ChangeFile], folder: &[u8]) -> usize
    requires { Ascends text_cmp file_path files.now }
    ensures bound { result ≤ length files.now }
    ensures behind { drop result files.now ≡ from_folder file_path folder.now files.now }
{
    files.partition_point(|file| is_before(&file.path, folder))
}

// Whether one of the first rows, as far as they lie in the folder, is one of the baseline outside the change.
fn any_row(state: &State, files: &[ChangeFile], folder: &[u8], rows: &[FileRow]) -> bool
    requires { Ascends text_cmp file_path files.now }
    ensures { result ≡ any_in_folder row_path (row_stays state.now files.now) folder.now rows.now }
{
    for row in rows {
        if !is_inside(&row.path, folder) {
            return false;
        }
        if row_stays(state, files, row) {
            return true;
        }
    }
    false
}

// Whether one of the first files, as far as they lie in the folder, isn't removed.
fn any_file(folder: &[u8], files: &[ChangeFile]) -> bool
    ensures { result ≡ any_in_folder file_path file_stays folder.now files.now }
{
    for file in files {
        if !is_inside(&file.path, folder) {
            return false;
        }
        if !is_removed(file) {
            return true;
        }
    }
    false
}

// Whether a path of the project lies in the folder.
fn holds_paths(state: &State, files: &[ChangeFile], folder: &[u8]) -> bool
    requires { Ascends text_cmp file_path files.now }
    ensures { result ≡ holds_paths state.now files.now folder.now }
{
    state.note_sound();
    let rows = state.files();
    let row = first_row(rows, folder);
    let file = first_file(files, folder);
    any_row(state, files, folder, &rows[row..]) || any_file(folder, &files[file..])
}

// The least path that clashes, where the path is one of any two that do.
fn path_clash<'a>(state: &'a State, files: &'a [ChangeFile], path: &[u8]) -> Option<&'a Path>
    requires { Ascends text_cmp file_path files.now }
    ensures { option_copied result ≡ path_clash state.now files.now path.now }
{
    let own = path_there(state, files, path)?;
    match folder_there(state, files, path) {
        Some(folder) => Some(folder),
        None => {
            if holds_paths(state, files, path) {
                Some(own)
            } else {
                None
            }
        }
    }
}

// A project with these files of a change has no paths that clash, where of any two that do one is this path.
fn path_is_clear(
    alloc: Global,
    state: &State,
    files: &[ChangeFile],
    path: &Path,
) -> Result<(), Refused>
    requires ascend { Ascends text_cmp file_path files.now }
    requires clear { IsClearBut path.now state.now files.now }
    ensures { Answers (are_clear state.now files.now) result }
{
    state.note_sound();
    match path_clash(state, files, path.bytes()) {
        Some(least) => {
            let least = least.copy(alloc)?;
            Err(Refused::Because(Refusal::PathClash(least)))
        }
        None => Ok(()),
    }
}

/// A project with these files of a change has no paths that clash. Where the files were clear before this path was put or
/// taken, it alone is tested.
pub(crate) fn stay_clear(
    alloc: Global,
    state: &State,
    files: &[ChangeFile],
    path: &Path,
    were_clear: bool,
) -> Result<(), Refused>
    requires ascend { Ascends text_cmp file_path files.now }
    requires clear { were_clear ≡ true → IsClearBut path.now state.now files.now }
    ensures { Answers (are_clear state.now files.now) result }
{
    if were_clear {
        path_is_clear(alloc, state, files, path)
    } else {
        are_clear(alloc, state, files)
    }
}

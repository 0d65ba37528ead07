// The least path that would clash with another one, where a change has these files. No list of the project's paths is made:
// a path clashes where a folder on the way to another path is a path too, and these are looked up.
ghost use Rattle.std.specs.Prelude.{◌≡◌, None, is_some, option_copied};
ghost use Rattle.std.specs.Ordering.{is_lt};
ghost use Rattle.ae_types.specs.Found.{file_path};
ghost use Rattle.ae_types.specs.Ordered.{Ascends};
ghost use Rattle.ae_types.specs.Phases.{is_remove};
ghost use Rattle.ae_types.specs.Trees.{last_delta, tree_row};
ghost use Rattle.ae_base.specs.Rows.{text_cmp};
ghost use Rattle.ae_machine.specs.Filing.{are_clear};
ghost use Rattle.ae_machine.specs.Freezing.{leaves_no_clash};
ghost use Rattle.ae_machine.specs.LeastClash.{file_folder, folder_in, least_folder, lesser, path_in, row_folder, row_stays, rows_folder, standing_path};
ghost use Rattle.ae_machine.specs.Paths.{paths_with};
ghost use Rattle.ae_machine.specs.Refused.{Answers};

use crate::call::Call;
use crate::refused::Refused;
use ae_base::{Action, Path, Refusal};
use ae_types::{ChangeFile, FileRow, State, entry_at, file_in, row_in};
use std::alloc::Global;

// Whether the row's file is in the baseline.
fn is_in_baseline(state: &State, row: &FileRow) -> bool
    ensures { result ≡ is_some (tree_row (last_delta state.now) row.now) }
{
    match entry_at(row.past.as_slice(), state.project().deltas.len()) {
        Some(entry) => entry.version.is_some(),
        None => false,
    }
}

pub(crate) fn is_removed(file: &ChangeFile) -> bool
    ensures { result ≡ is_remove file.now.action }
{
    file.action == Action::Remove
}

// The path as the baseline has it.
fn standing_path<'a>(state: &'a State, path: &[u8]) -> Option<&'a Path>
    ensures { option_copied result ≡ standing_path state.now path.now }
{
    state.note_sound();
    let row = row_in(state.files(), path)?;
    if is_in_baseline(state, row) {
        Some(&row.path)
    } else {
        None
    }
}

// The path as the project would have it.
pub(crate) fn path_there<'a>(
    state: &'a State,
    files: &'a [ChangeFile],
    path: &[u8],
) -> Option<&'a Path>
    requires { Ascends text_cmp file_path files.now }
    ensures { option_copied result ≡ path_in (paths_with state.now files.now) path.now }
{
    state.note_sound();
    match file_in(files, path) {
        Some(file) => {
            if is_removed(file) {
                None
            } else {
                Some(&file.path)
            }
        }
        None => standing_path(state, path),
    }
}

// The shortest folder on the way to the path that is a path of the project.
pub(crate) fn folder_there<'a>(
    state: &'a State,
    files: &'a [ChangeFile],
    path: &[u8],
) -> Option<&'a Path>
    requires { Ascends text_cmp file_path files.now }
    ensures { option_copied result ≡ folder_in (paths_with state.now files.now) path.now }
{
    for at in 0..path.len() {
        if path[at] == b'/' {
            if let Some(folder) = path_there(state, files, &path[..at]) {
                return Some(folder);
            }
        }
    }
    None
}

// Whether the row is one of the baseline outside the change.
pub(crate) fn row_stays(state: &State, files: &[ChangeFile], row: &FileRow) -> bool
    requires { Ascends text_cmp file_path files.now }
    ensures { result ≡ row_stays state.now files.now row.now }
{
    is_in_baseline(state, row) && file_in(files, row.path.bytes()).is_none()
}

fn row_folder<'a>(state: &'a State, files: &'a [ChangeFile], row: &FileRow) -> Option<&'a Path>
    requires { Ascends text_cmp file_path files.now }
    ensures { option_copied result ≡ row_folder state.now files.now row.now }
{
    if row_stays(state, files, row) {
        folder_there(state, files, row.path.bytes())
    } else {
        None
    }
}

fn file_folder<'a>(state: &'a State, files: &'a [ChangeFile], file: &ChangeFile) -> Option<&'a Path>
    requires { Ascends text_cmp file_path files.now }
    ensures { option_copied result ≡ file_folder state.now files.now file.now }
{
    if is_removed(file) {
        None
    } else {
        folder_there(state, files, file.path.bytes())
    }
}

fn is_below(path: &Path, other: &Path) -> bool
    ensures { result ≡ is_lt (text_cmp path.now other.now) }
{
    path.bytes().cmp(other.bytes()).is_lt()
}

fn lesser<'a>(one: Option<&'a Path>, other: Option<&'a Path>) -> Option<&'a Path>
    ensures { option_copied result ≡ lesser (option_copied one.entry) (option_copied other.entry) }
{
    match (one, other) {
        (Some(path), Some(second)) if is_below(second, path) => Some(second),
        (Some(path), _) => Some(path),
        (None, second) => second,
    }
}

fn rows_folder<'a>(state: &'a State, files: &'a [ChangeFile]) -> Option<&'a Path>
    requires { Ascends text_cmp file_path files.now }
    ensures { option_copied result ≡ rows_folder state.now files.now }
{
    let mut least = None;
    for row in state.files() {
        least = lesser(least, row_folder(state, files, row));
    }
    least
}

fn least_folder<'a>(state: &'a State, files: &'a [ChangeFile]) -> Option<&'a Path>
    requires { Ascends text_cmp file_path files.now }
    ensures { option_copied result ≡ least_folder state.now files.now }
{
    let mut least = rows_folder(state, files);
    for file in files {
        least = lesser(least, file_folder(state, files, file));
    }
    least
}

/// A project with these files of a change has no paths that clash.
pub(crate) fn are_clear(alloc: Global, state: &State, files: &[ChangeFile]) -> Result<(), Refused>
    requires { Ascends text_cmp file_path files.now }
    ensures { Answers (are_clear state.now files.now) result }
{
    state.note_sound();
    match least_folder(state, files) {
        Some(path) => {
            let path = path.copy(alloc)?;
            Err(Refused::Because(Refusal::PathClash(path)))
        }
        None => Ok(()),
    }
}

/// With the change no path of the project clashes with another.
pub(crate) fn leaves_no_clash(alloc: Global, call: &Call) -> Result<(), Refused>
    ensures { Answers (leaves_no_clash call.now) result }
{
    call.note_sound();
    match call.change() {
        Some(change) => are_clear(alloc, call.state(), change.files.as_slice()),
        None => Ok(()),
    }
}

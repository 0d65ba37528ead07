// The entries of the file table beside the changes.
ghost use Rattle.std.specs.Prelude.{◌≡◌, length};
ghost use Rattle.std.specs.List.{list_all};
ghost use Rattle.std.specs.Ordering.{nat_cmp};
ghost use Rattle.ae_types.specs.Ordered.{Ascends};
ghost use Rattle.ae_types.specs.Found.{number_of_delta, number_of_change};
ghost use Rattle.ae_types.specs.Rules.{file_is_entered, delta_is_entered, entry_has_file, entries_fit};
ghost use Rattle.ae_types.specs.Sound.{AreRows, AreChanges};
ghost use Rattle.ae_rules.specs.Beside.{row_has_files};

use crate::locks::has_file;
use crate::phases::is_remove;
use ae_base::{ChangeNo, Delta, Path};
use ae_types::{
    Change, ChangeFile, DeltaRow, FileRow, FileVersion, change_in, delta_in, entry_in, row_in,
};

fn file_is_entered(deltas: usize, rows: &[FileRow], delta: Delta, file: &ChangeFile) -> bool
    requires { AreRows deltas rows.now }
    ensures { result ≡ file_is_entered rows.now delta file.now }
{
    let Some(row) = row_in(rows, file.path.bytes()) else {
        return false;
    };
    match entry_in(row.past.as_slice(), delta) {
        Some(entry) => entry.version.is_some() == !is_remove(file.action),
        None => false,
    }
}

fn files_are_entered(deltas: usize, rows: &[FileRow], delta: Delta, files: &[ChangeFile]) -> bool
    requires { AreRows deltas rows.now }
    ensures { result ≡ list_all (file_is_entered rows.now delta) files.now }
{
    for file in files {
        if !file_is_entered(deltas, rows, delta, file) {
            return false;
        }
    }
    true
}

fn delta_is_entered(deltas: usize, rows: &[FileRow], changes: &[Change], delta: &DeltaRow) -> bool
    requires rows { AreRows deltas rows.now }
    requires changes { Ascends nat_cmp number_of_change changes.now }
    ensures { result ≡ delta_is_entered rows.now changes.now delta.now }
{
    match change_in(changes, delta.change) {
        Some(change) => files_are_entered(deltas, rows, delta.delta, change.files.as_slice()),
        None => true,
    }
}

fn deltas_are_entered(
    count: usize,
    rows: &[FileRow],
    changes: &[Change],
    deltas: &[DeltaRow],
) -> bool
    requires rows { AreRows count rows.now }
    requires changes { Ascends nat_cmp number_of_change changes.now }
    ensures { result ≡ list_all (delta_is_entered rows.now changes.now) deltas.now }
{
    for delta in deltas {
        if !delta_is_entered(count, rows, changes, delta) {
            return false;
        }
    }
    true
}

fn entry_has_file(
    deltas: &[DeltaRow],
    numbers: &[ChangeNo],
    changes: &[Change],
    path: &Path,
    entry: &FileVersion,
) -> bool
    requires deltas { Ascends nat_cmp number_of_delta deltas.now }
    requires changes { AreChanges numbers.now changes.now }
    ensures { result ≡ entry_has_file deltas.now changes.now path.now entry.now }
{
    let Some(delta) = delta_in(deltas, entry.delta) else {
        return true;
    };
    match change_in(changes, delta.change) {
        Some(change) => has_file(change, path),
        None => true,
    }
}

fn row_has_files(
    deltas: &[DeltaRow],
    numbers: &[ChangeNo],
    changes: &[Change],
    row: &FileRow,
) -> bool
    requires deltas { Ascends nat_cmp number_of_delta deltas.now }
    requires changes { AreChanges numbers.now changes.now }
    ensures { result ≡ row_has_files deltas.now changes.now row.now }
{
    for entry in row.past.as_slice() {
        if !entry_has_file(deltas, numbers, changes, &row.path, entry) {
            return false;
        }
    }
    true
}

fn rows_have_files(
    deltas: &[DeltaRow],
    numbers: &[ChangeNo],
    changes: &[Change],
    rows: &[FileRow],
) -> bool
    requires deltas { Ascends nat_cmp number_of_delta deltas.now }
    requires changes { AreChanges numbers.now changes.now }
    ensures { result ≡ list_all (row_has_files deltas.now changes.now) rows.now }
{
    for row in rows {
        if !row_has_files(deltas, numbers, changes, row) {
            return false;
        }
    }
    true
}

pub(crate) fn entries_fit(
    deltas: &[DeltaRow],
    rows: &[FileRow],
    numbers: &[ChangeNo],
    changes: &[Change],
) -> bool
    requires deltas { Ascends nat_cmp number_of_delta deltas.now }
    requires rows { AreRows (length deltas.now) rows.now }
    requires changes { AreChanges numbers.now changes.now }
    ensures { result ≡ entries_fit deltas.now rows.now changes.now }
{
    deltas_are_entered(deltas.len(), rows, changes, deltas)
        && rows_have_files(deltas, numbers, changes, rows)
}

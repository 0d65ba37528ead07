// What a key finds in the records, by binary search.
ghost use Rattle.std.specs.Prelude.{◌≡◌, option_copied};
ghost use Rattle.std.specs.Ordering.{nat_cmp};
ghost use Rattle.ae_types.specs.Ordered.{Ascends, itself};
ghost use Rattle.ae_types.specs.Found.{number_of_change, file_path, row_path, entry_delta, lock_path, number_of_delta, change_in, file_in, row_in, entry_in, lock_in, delta_in, has_number};
ghost use Rattle.ae_base.specs.Rows.{text_cmp};

use crate::{Change, ChangeFile, DeltaRow, FileRow, FileVersion, Lock};
use ae_base::{ChangeNo, Delta, Path};
use std::cmp::Ordering;

fn compare_path(path: &Path, other: &[u8]) -> Ordering
    ensures { result ≡ text_cmp path.now other.now }
{
    path.bytes().cmp(other)
}

fn compare_change(number: ChangeNo, other: ChangeNo) -> Ordering
    ensures { result ≡ nat_cmp number other }
{
    number.number().cmp(&other.number())
}

fn compare_delta(number: Delta, other: Delta) -> Ordering
    ensures { result ≡ nat_cmp number other }
{
    number.number().cmp(&other.number())
}

/// The row of this path in the file table. The rows ascend.
pub fn row_in<'a>(rows: &'a [FileRow], path: &[u8]) -> Option<&'a FileRow>
    requires { Ascends text_cmp row_path rows.now }
    ensures { option_copied result ≡ row_in rows.now path.now }
{
    match rows.binary_search_by(|row| compare_path(&row.path, path)) {
        Ok(at) => Some(&rows[at]),
        Err(_) => None,
    }
}

/// The entry of this delta in a file's past. The past ascend.
pub fn entry_in<'a>(past: &'a [FileVersion], delta: Delta) -> Option<&'a FileVersion>
    requires { Ascends nat_cmp entry_delta past.now }
    ensures { option_copied result ≡ entry_in past.now delta }
{
    match past.binary_search_by(|entry| compare_delta(entry.delta, delta)) {
        Ok(at) => Some(&past[at]),
        Err(_) => None,
    }
}

/// The lock of this path. The locks ascend.
pub fn lock_in<'a>(locks: &'a [Lock], path: &[u8]) -> Option<&'a Lock>
    requires { Ascends text_cmp lock_path locks.now }
    ensures { option_copied result ≡ lock_in locks.now path.now }
{
    match locks.binary_search_by(|lock| compare_path(&lock.path, path)) {
        Ok(at) => Some(&locks[at]),
        Err(_) => None,
    }
}

/// The file of this path in a change. The files ascend.
pub fn file_in<'a>(files: &'a [ChangeFile], path: &[u8]) -> Option<&'a ChangeFile>
    requires { Ascends text_cmp file_path files.now }
    ensures { option_copied result ≡ file_in files.now path.now }
{
    match files.binary_search_by(|file| compare_path(&file.path, path)) {
        Ok(at) => Some(&files[at]),
        Err(_) => None,
    }
}

/// The change of this number. The changes ascend.
pub fn change_in<'a>(changes: &'a [Change], number: ChangeNo) -> Option<&'a Change>
    requires { Ascends nat_cmp number_of_change changes.now }
    ensures { option_copied result ≡ change_in changes.now number }
{
    match changes.binary_search_by(|change| compare_change(change.number, number)) {
        Ok(at) => Some(&changes[at]),
        Err(_) => None,
    }
}

/// The delta of this number. The deltas ascend.
pub fn delta_in<'a>(deltas: &'a [DeltaRow], number: Delta) -> Option<&'a DeltaRow>
    requires { Ascends nat_cmp number_of_delta deltas.now }
    ensures { option_copied result ≡ delta_in deltas.now number }
{
    match deltas.binary_search_by(|delta| compare_delta(delta.delta, number)) {
        Ok(at) => Some(&deltas[at]),
        Err(_) => None,
    }
}

/// Whether the number is among these, which ascend.
pub fn has_number(numbers: &[ChangeNo], number: ChangeNo) -> bool
    requires { Ascends nat_cmp itself numbers.now }
    ensures { result ≡ has_number numbers.now number }
{
    numbers
        .binary_search_by(|other| compare_change(*other, number))
        .is_ok()
}

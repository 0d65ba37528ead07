// The locks beside the changes.
ghost use Rattle.std.specs.Prelude.{◌≡◌};
ghost use Rattle.std.specs.List.{list_all};
ghost use Rattle.std.specs.Ordering.{nat_cmp};
ghost use Rattle.ae_types.specs.Ordered.{Ascends, itself};
ghost use Rattle.ae_types.specs.Found.{lock_path, has_file};
ghost use Rattle.ae_base.specs.Rows.{text_cmp};
ghost use Rattle.ae_types.specs.Rules.{lock_has_file, files_have_locks, locks_fit};
ghost use Rattle.ae_types.specs.Sound.{IsGoodChange, AreChanges};
ghost use Rattle.ae_rules.specs.Beside.{file_has_lock};

use crate::phases::holds_locks;
use ae_base::{ChangeNo, Path};
use ae_types::{Change, ChangeFile, Lock, change_in, file_in, has_number, lock_in};

pub(crate) fn has_file(change: &Change, path: &Path) -> bool
    requires { IsGoodChange change.now }
    ensures { result ≡ has_file change.now path.now }
{
    file_in(change.files.as_slice(), path.bytes()).is_some()
}

fn lock_has_file(numbers: &[ChangeNo], changes: &[Change], lock: &Lock) -> bool
    requires numbers { Ascends nat_cmp itself numbers.now }
    requires changes { AreChanges numbers.now changes.now }
    ensures { result ≡ lock_has_file numbers.now changes.now lock.now }
{
    if !has_number(numbers, lock.change) {
        return false;
    }
    match change_in(changes, lock.change) {
        Some(change) => holds_locks(change.phase) && has_file(change, &lock.path),
        None => true,
    }
}

fn locks_have_files(numbers: &[ChangeNo], changes: &[Change], locks: &[Lock]) -> bool
    requires numbers { Ascends nat_cmp itself numbers.now }
    requires changes { AreChanges numbers.now changes.now }
    ensures { result ≡ list_all (lock_has_file numbers.now changes.now) locks.now }
{
    for lock in locks {
        if !lock_has_file(numbers, changes, lock) {
            return false;
        }
    }
    true
}

fn file_has_lock(locks: &[Lock], number: ChangeNo, file: &ChangeFile) -> bool
    requires { Ascends text_cmp lock_path locks.now }
    ensures { result ≡ file_has_lock locks.now number file.now }
{
    match lock_in(locks, file.path.bytes()) {
        Some(lock) => lock.change.number() == number.number(),
        None => false,
    }
}

fn files_have_locks(locks: &[Lock], change: &Change) -> bool
    requires { Ascends text_cmp lock_path locks.now }
    ensures { result ≡ files_have_locks locks.now change.now }
{
    if !holds_locks(change.phase) {
        return true;
    }
    for file in change.files.as_slice() {
        if !file_has_lock(locks, change.number, file) {
            return false;
        }
    }
    true
}

fn changes_have_locks(locks: &[Lock], changes: &[Change]) -> bool
    requires { Ascends text_cmp lock_path locks.now }
    ensures { result ≡ list_all (files_have_locks locks.now) changes.now }
{
    for change in changes {
        if !files_have_locks(locks, change) {
            return false;
        }
    }
    true
}

pub(crate) fn locks_fit(numbers: &[ChangeNo], locks: &[Lock], changes: &[Change]) -> bool
    requires numbers { Ascends nat_cmp itself numbers.now }
    requires locks { Ascends text_cmp lock_path locks.now }
    requires changes { AreChanges numbers.now changes.now }
    ensures { result ≡ locks_fit numbers.now locks.now changes.now }
{
    locks_have_files(numbers, changes, locks) && changes_have_locks(locks, changes)
}

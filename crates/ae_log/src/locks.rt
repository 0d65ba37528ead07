// The locks, in the order of their paths, after an event: a change takes those of its files, or gives back its own.
ghost use Rattle.std.specs.Prelude.{◌≡◌, OnOk};
ghost use Rattle.ae_base.specs.Rows.{text_cmp};
ghost use Rattle.ae_types.specs.Found.{lock_path};
ghost use Rattle.ae_types.specs.Ordered.{Ascends, put_by};
ghost use Rattle.ae_log.specs.After.{locks_after, with_locks, without_locks};

use crate::EventKind;
use crate::files::compare_path;
use ae_base::ChangeNo;
use ae_types::{ChangeFile, Lock, LockList};
use std::alloc::{AllocError, Global};

// Puts a lock in its place, or in that of the lock of its path.
fn put_lock(locks: &mut Vec<Lock>, lock: Lock) -> Result<(), AllocError>
    requires { Ascends text_cmp lock_path locks.old.items }
    ensures { OnOk result (locks.new.items ≡ put_by text_cmp lock_path lock locks.old.items) }
{
    match locks.binary_search_by(|other| compare_path(&other.path, &lock.path)) {
        Ok(at) => locks[at] = lock,
        Err(at) => locks.insert(at, lock)?,
    }
    Ok(())
}

// The change takes the lock of each of these files.
fn lock_files(
    alloc: Global,
    locks: &mut Vec<Lock>,
    number: ChangeNo,
    files: &[ChangeFile],
) -> Result<(), AllocError>
    requires { Ascends text_cmp lock_path locks.old.items }
    ensures { OnOk result (locks.new.items ≡ with_locks number files.now locks.old.items) }
{
    for at in (0..files.len()).rev() {
        let path = files[at].path.copy(alloc)?;
        let change = number;
        put_lock(locks, Lock { path, change })?;
    }
    Ok(())
}

// The change gives its locks back.
fn unlock(locks: &mut Vec<Lock>, number: ChangeNo)
    ensures { locks.new.items ≡ without_locks number locks.old.items }
{
    locks.retain(|lock| number.number() != lock.change.number());
}

/// Makes the locks those after an event of the change of this number, which had these files.
pub(crate) fn alter_locks(
    alloc: Global,
    list: &mut LockList,
    what: &EventKind,
    number: ChangeNo,
    files: &[ChangeFile],
) -> Result<(), AllocError>
    requires { Ascends text_cmp lock_path list.old }
    ensures { OnOk result (list.new ≡ locks_after what.now number files.now list.old) }
{
    let mut locks = std::mem::replace(list, LockList::new(alloc)).into_vec();
    match what {
        EventKind::End(..) => lock_files(alloc, &mut locks, number, files)?,
        EventKind::EndUndo | EventKind::Fail | EventKind::IPass | EventKind::IFail => {
            unlock(&mut locks, number);
        }
        _ => {}
    }
    *list = LockList::of(locks);
    Ok(())
}

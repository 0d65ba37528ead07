// Whether two states have the same file table.
ghost use Rattle.std.specs.Prelude.{◌≡◌, ◌↔◌, List, IsTrue, option_copied};
ghost use Rattle.ae_types.specs.declared.file_table.FileRow.{FileRow};
ghost use Rattle.ae_types.specs.declared.file_table.Lock.{Lock};
ghost use Rattle.ae_store.specs.Batching.{HasTable};

use ae_types::{FileRow, Lock, State};

fn are_same_rows(rows: &[FileRow], others: &[FileRow]) -> bool
    ensures { IsTrue result ↔ (rows.now ≡ others.now) }
{
    rows == others
}

fn are_same_locks(locks: &[Lock], others: &[Lock]) -> bool
    ensures { IsTrue result ↔ (locks.now ≡ others.now) }
{
    locks == others
}

/// Whether there was a project, with just the files and locks of this state.
pub(crate) fn has_same_table(old: Option<&State>, new: &State) -> bool
    ensures { IsTrue result ↔ HasTable (option_copied old.entry) new.now }
{
    match old {
        Some(old) => {
            are_same_rows(old.files(), new.files()) && are_same_locks(old.locks(), new.locks())
        }
        None => false,
    }
}

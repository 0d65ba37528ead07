// Opening: recovery from what a stop left.
ghost use Rattle.std.specs.Prelude.{◌≡◌, ◌≢◌, ◌⊎◌, ◌<◌, ◌≤◌, ◌-◌, [], true, false, Option, Some, None, OnOk, IsErrOf, IfOk, IfSome, option_map};
ghost use Rattle.ae_outside.specs.Image.{IsSame};
ghost use Rattle.ae_outside.specs.State.{reads, MayLeave, Continues, GoesOn};
ghost use Rattle.ae_vault.specs.Disk.{DiskFailed, IsCleanDisk, OnlyReads, files_of};
ghost use Rattle.ae_vault.specs.Vault.{is_open, all_entry_names};
ghost use Rattle.ae_vault.specs.Commit.{IsSettled, OpenAt, Throughout, IsRecovering, IsGateSynced, IsRedo, UnlessFault};

use crate::body::read_body;
use crate::vault::{BODY, GATE, put_entries, set_gate};
use crate::{Entry, Vault, VaultError};
use ae_outside::Disk;
use std::alloc::Global;

impl Vault {
    /// Recovers what a stop left.
    pub fn open<D: Disk>(alloc: Global, disk: &mut D) -> Result<(), VaultError>
        ensures time { D.tells → Continues (D.state disk.old) (D.state disk.new) }
        ensures clean { OnOk result (IsCleanDisk D.Disk disk.new) }
        // Where the disk is settled, a stop at any moment leaves the files that one before it would have left,
        ensures any_moment { D.tells → IsSettled (reads (D.state disk.old)) (MayLeave (D.state disk.old)) → Throughout (OpenAt (D.state disk.old)) (D.state disk.old).moment (D.state disk.new) }
        // And from the sync of the gate on those of a stop that left the gate as it is read. Only a fault leaves open whether
        // the gate was synced, and then only while nothing was written.
        ensures synced { D.tells → IsSettled (reads (D.state disk.old)) (MayLeave (D.state disk.old)) → GoesOn IsSame (D.state disk.old) (D.state disk.new) ⊎ IsRecovering (D.state disk.old) (D.state disk.new) }
        ensures synced_ok { UnlessFault result (D.tells → IsSettled (reads (D.state disk.old)) (MayLeave (D.state disk.old)) → IsRecovering (D.state disk.old) (D.state disk.new)) }
        // However it ends, what is read are the files that were read before.
        ensures read { D.tells → files_of D.Disk disk.new ≡ files_of D.Disk disk.old }
        ensures whole { OnOk result (D.tells → files_of D.Disk disk.old ≢ None) }
        ensures damaged { IsErrOf result VaultError.Damaged → D.tells → files_of D.Disk disk.old ≡ None }
        ensures unchanged { IsErrOf result VaultError.Damaged → OnlyReads D.Disk disk.old disk.new }
        ensures memory { IsErrOf result VaultError.Memory → OnlyReads D.Disk disk.old disk.new }
        ensures later { D.faults disk.old ≤ D.faults disk.new }
        ensures fault { IsErrOf result VaultError.DiskFault → DiskFailed D.Disk disk.old disk.new }
    {
        match read_redo(alloc, disk)? {
            None => Ok(()),
            Some(entries) => {
                put_entries(disk, &entries)?;
                set_gate(disk, 0)?;
                Ok(())
            }
        }
    }
}

// Syncs the gate, and reads what it and the body say.
fn read_redo<D: Disk>(alloc: Global, disk: &mut D) -> Result<Option<Vec<Entry>>, VaultError>
    ensures change { OnlyReads D.Disk disk.old disk.new }
    ensures synced { UnlessFault result (D.tells → IsGateSynced (D.state disk.old) (D.state disk.new)) }
    ensures redo { IfOk result (λ entries. D.tells → IsRedo (reads (D.state disk.old)) (option_map (λ v. v.items) entries)) }
    ensures names { IfOk result (λ entries. IfSome entries (λ v. all_entry_names v.items ≡ true)) }
    ensures damaged { IsErrOf result VaultError.Damaged → D.tells → files_of D.Disk disk.old ≡ None }
    ensures later { D.faults disk.old ≤ D.faults disk.new }
    ensures fault { IsErrOf result VaultError.DiskFault → DiskFailed D.Disk disk.old disk.new }
{
    disk.sync(GATE)?;
    let first = disk.read_at(alloc, GATE, 0, 1)?;
    if !is_open_gate(&first) {
        return Ok(None);
    }
    let size = disk.size(BODY)?;
    let bytes = disk.read_at(alloc, BODY, 0, size as usize)?;
    let entries = read_body(alloc, &bytes)?;
    Ok(Some(entries))
}

fn is_open_gate(bytes: &[u8]) -> bool
    ensures { result ≡ is_open bytes.now }
{
    match bytes {
        [] => false,
        [byte, ..] => *byte == 1,
    }
}

// The bytes of a version are read.
ghost use Rattle.std.specs.Prelude.{◌≡◌, ◌≤◌, ◌*◌, ◌↔◌, ℕ, List, true, Err, length, take, drop, IfOk, IsTrue, IsSomeAnd, IsErrOf};
ghost use Rattle.ae_base.specs.Limits.{most_units};
ghost use Rattle.ae_outside.specs.Causes.{Counted};
ghost use Rattle.ae_types.specs.Versions.{has_units, end_of};
ghost use Rattle.ae_vault.specs.Disk.{IsCleanDisk, OnlyReads, files_of};
ghost use Rattle.ae_vault.specs.Pieces.{pack};
ghost use Rattle.ae_history.specs.Packed.{bytes_at, AreOf};

use crate::HistoryError;
use crate::placing::digest_of;
use ae_outside::{Disk, ReadError};
use ae_types::VersionRef;
use ae_vault::Vault;
use std::alloc::Global;

const PACK: &str = "pack";

// Where the version's bytes begin; 0 where it has none.
fn byte_place(version: &VersionRef) -> u64
    requires { has_units version.now ≡ true → end_of version.now ≤ most_units }
    ensures { (packed : List ℕ) → take version.now.length (drop result packed) ≡ bytes_at packed version.now }
{
    if version.length == 0 {
        return 0;
    }
    version.at * 64
}

// Whether the bytes have the length and the SHA-256 that were kept.
fn are_of(version: &VersionRef, bytes: &[u8]) -> bool
    ensures { IsTrue result ↔ AreOf version.now bytes.now }
{
    bytes.len() as u64 == u64::from(version.length) && digest_of(bytes) == version.digest
}

/// The bytes of a version. No more than these are read. Where the version has units, they end in the region.
pub fn get_version<D: Disk>(
    alloc: Global,
    disk: &mut D,
    version: &VersionRef,
) -> Result<Vec<u8>, HistoryError>
    requires clean { IsCleanDisk D.Disk disk.old }
    requires place { has_units version.now ≡ true → end_of version.now ≤ most_units }
    // What lies at its place, and what was kept of it says so.
    ensures bytes { IfOk result (λ bytes. D.tells → IsSomeAnd (files_of D.Disk disk.old) (λ files. bytes.items ≡ bytes_at (files pack) version.now)) }
    ensures kept { IfOk result (λ bytes. AreOf version.now bytes.items) }
    // It is damaged exactly where length or SHA-256 isn't the one that was kept.
    ensures damaged { (number : ℕ) → IsErrOf result (HistoryError.Damaged number) → D.tells → IsSomeAnd (files_of D.Disk disk.old) (λ files. AreOf version.now (bytes_at (files pack) version.now) → ⊥) }
    ensures its_number { (number : ℕ) → IsErrOf result (HistoryError.Damaged number) → number ≡ version.now.number }
    ensures never_full { IsErrOf result HistoryError.Full → ⊥ }
    ensures change { OnlyReads D.Disk disk.old disk.new }
    ensures cause { Counted (D.faults disk.old) (D.faults disk.new) (IsErrOf result HistoryError.DiskFault) }
{
    let bytes = Vault::get_range(
        alloc,
        disk,
        PACK,
        byte_place(version),
        version.length as usize,
    )?;
    if !are_of(version, &bytes) {
        return Err(HistoryError::Damaged(version.number));
    }
    Ok(bytes)
}

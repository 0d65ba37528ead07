// Reading one file.
ghost use Rattle.std.specs.Prelude.{◌≡◌, take, drop, false, IfOk, IsSomeAnd, IsErrOf};
ghost use Rattle.ae_outside.specs.Causes.{Counted};
ghost use Rattle.ae_outside.specs.DiskNames.{IsDiskName};
ghost use Rattle.ae_vault.specs.Disk.{IsCleanDisk, OnlyReads, files_of};
ghost use Rattle.ae_vault.specs.Vault.{is_own};

use crate::Vault;
use ae_outside::{Disk, ReadError};
use std::alloc::Global;

impl Vault {
    /// The bytes of a file.
    pub fn get<D: Disk>(alloc: Global, disk: &mut D, name: &str) -> Result<Vec<u8>, ReadError>
        requires clean { IsCleanDisk D.Disk disk.old }
        requires name { IsDiskName name.now }
        requires other { is_own name.now ≡ false }
        ensures bytes { IfOk result (λ bytes. D.tells → IsSomeAnd (files_of D.Disk disk.old) (λ files. bytes.items ≡ files name.now)) }
        ensures change { OnlyReads D.Disk disk.old disk.new }
        ensures cause { Counted (D.faults disk.old) (D.faults disk.new) (IsErrOf result ReadError.Failed) }
    {
        let size = match disk.size(name) {
            Ok(size) => size,
            Err(_) => return Err(ReadError::Failed),
        };
        disk.read_at(alloc, name, 0, size as usize)
    }

    /// The bytes of a file from `at` on, at most `len`, and fewer at its end.
    pub fn get_range<D: Disk>(
        alloc: Global,
        disk: &mut D,
        name: &str,
        at: u64,
        len: usize,
    ) -> Result<Vec<u8>, ReadError>
        requires clean { IsCleanDisk D.Disk disk.old }
        requires name { IsDiskName name.now }
        requires other { is_own name.now ≡ false }
        ensures bytes { IfOk result (λ bytes. D.tells → IsSomeAnd (files_of D.Disk disk.old) (λ files. bytes.items ≡ take len (drop at (files name.now)))) }
        ensures change { OnlyReads D.Disk disk.old disk.new }
        ensures cause { Counted (D.faults disk.old) (D.faults disk.new) (IsErrOf result ReadError.Failed) }
    {
        disk.read_at(alloc, name, at, len)
    }
}

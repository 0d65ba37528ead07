// A disk of named files, of which a stop may leave what isn't stable otherwise.
ghost use Rattle.std.specs.Prelude.{◌≡◌, ◌≤◌, ◌<◌, ◌+◌, ◌^◌, ℕ, length, take, drop, IfOk, OnOk, IsErrOf};
ghost use Rattle.ae_outside.specs.Causes.{Counted, HasCause};
ghost use Rattle.ae_outside.specs.DiskNames.{IsDiskName};
ghost use Rattle.ae_outside.specs.Image.{IsSame, WriteBegun, CutBegun, Overwritten};
ghost use Rattle.ae_outside.specs.State.{DiskState, reads, GoesOn, IsStable};

use crate::{Failed, ReadError};
use std::alloc::Global;

/// A map from names to bytes; an absent file is an empty one. Only what was synced outlasts a stop: until then each
/// byte that was written or cut away may hold anything after a stop, and the length may be any that the file had since.
pub trait Disk {
    /// Whether it is told what the disk holds.
    ghost tells: { Type 0 };

    /// What it holds, and what a stop may leave, at each moment so far.
    ghost state: { Self → DiskState };

    /// How often it has failed.
    ghost faults: { Self → ℕ };

    /// The length of a file in bytes.
    fn size(&mut self, name: &str) -> Result<u64, Failed>
        requires { IsDiskName name.now }
        ensures size { IfOk result (λ n. tells → n ≡ length (reads (state self.old) name.now)) }
        ensures change { tells → GoesOn IsSame (state self.old) (state self.new) }
        ensures cause { HasCause (faults self.old) (faults self.new) result };

    /// The bytes of a file from `at` on, at most `len`, and fewer at its end.
    fn read_at(
        &mut self,
        alloc: Global,
        name: &str,
        at: u64,
        len: usize,
    ) -> Result<Vec<u8>, ReadError>
        requires { IsDiskName name.now }
        ensures bytes { IfOk result (λ bytes. tells → bytes.items ≡ take len (drop at (reads (state self.old) name.now))) }
        ensures at_most { IfOk result (λ bytes. length bytes.items ≤ len) }
        ensures change { tells → GoesOn IsSame (state self.old) (state self.new) }
        ensures cause { Counted (faults self.old) (faults self.new) (IsErrOf result ReadError.Failed) };

    /// Puts the bytes at `at`. After a failure the range may read as anything, and the length lies between the old and the new one.
    fn write_at(&mut self, name: &str, at: u64, bytes: &[u8]) -> Result<(), Failed>
        requires name { IsDiskName name.now }
        requires at { tells → at ≤ length (reads (state self.old) name.now) }
        requires end { at + length bytes.now < 2 ^ 64 }
        ensures written { OnOk result (tells → Overwritten at bytes.now (reads (state self.old) name.now) (reads (state self.new) name.now)) }
        ensures change { tells → GoesOn (WriteBegun name.now at (length bytes.now)) (state self.old) (state self.new) }
        ensures cause { HasCause (faults self.old) (faults self.new) result };

    /// Shortens a file to `len` bytes; a shorter one stays.
    fn cut(&mut self, name: &str, len: u64) -> Result<(), Failed>
        requires { IsDiskName name.now }
        ensures cut { OnOk result (tells → reads (state self.new) name.now ≡ take len (reads (state self.old) name.now)) }
        // After a failure too what is read is the file's front, of a length between the two.
        ensures front { tells → take (length (reads (state self.new) name.now)) (reads (state self.old) name.now) ≡ reads (state self.new) name.now }
        ensures change { tells → GoesOn (CutBegun name.now len) (state self.old) (state self.new) }
        ensures cause { HasCause (faults self.old) (faults self.new) result };

    /// Makes a file stable: a stop leaves it as it reads.
    fn sync(&mut self, name: &str) -> Result<(), Failed>
        requires { IsDiskName name.now }
        ensures stable { OnOk result (tells → IsStable name.now (state self.new)) }
        ensures change { tells → GoesOn IsSame (state self.old) (state self.new) }
        ensures cause { HasCause (faults self.old) (faults self.new) result };
}

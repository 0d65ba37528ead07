// The vault: a redo body, and a gate that opens after it.
ghost use Rattle.std.specs.Prelude.{◌≡◌, ◌⊎◌, ◌<◌, ◌-◌, [], true, Some, None, OnOk, unwrap_or, ◌==◌};
ghost use Rattle.ae_outside.specs.DiskNames.{IsDiskName};
ghost use Rattle.ae_outside.specs.Image.{Image, SameElsewhere};
ghost use Rattle.ae_outside.specs.Causes.{HasCause};
ghost use Rattle.ae_outside.specs.State.{reads, MayLeave, Continues, GoesOn, IsStable};
ghost use Rattle.ae_vault.specs.Disk.{IsCleanDisk};
ghost use Rattle.ae_vault.specs.Vault.{gate, body, is_open, all_entry_names};
ghost use Rattle.ae_vault.specs.Pieces.{BatchAt, IsBeforeBatch, IsAfterBatch};
ghost use Rattle.ae_vault.specs.Commit.{SameOutside, HasEntries, CommitAt, IsAfter, Throughout};

use crate::entry::disk_name;
use crate::packed::write_pieces;
use crate::{Batch, Entry};
use ae_outside::{Disk, Failed};

/// The file that says whether the body counts.
pub const GATE: &str = "gate";

/// The file with the entries that are put all or none.
pub const BODY: &str = "body";

/// Writes a whole file.
fn replace<D: Disk>(disk: &mut D, name: &str, bytes: &[u8]) -> Result<(), Failed>
    requires { IsDiskName name.now }
    ensures reads { OnOk result (D.tells → reads (D.state disk.new) name.now ≡ bytes.now) }
    ensures stable { OnOk result (D.tells → IsStable name.now (D.state disk.new)) }
    ensures change { D.tells → GoesOn (SameElsewhere name.now) (D.state disk.old) (D.state disk.new) }
    ensures cause { HasCause (D.faults disk.old) (D.faults disk.new) result }
{
    disk.write_at(name, 0, bytes)?;
    disk.cut(name, bytes.len() as u64)?;
    disk.sync(name)
}

/// Cuts a file to nothing.
fn clear<D: Disk>(disk: &mut D, name: &str) -> Result<(), Failed>
    requires { IsDiskName name.now }
    ensures reads { OnOk result (D.tells → reads (D.state disk.new) name.now ≡ []) }
    ensures stable { OnOk result (D.tells → IsStable name.now (D.state disk.new)) }
    ensures change { D.tells → GoesOn (SameElsewhere name.now) (D.state disk.old) (D.state disk.new) }
    ensures cause { HasCause (D.faults disk.old) (D.faults disk.new) result }
{
    disk.cut(name, 0)?;
    disk.sync(name)
}

/// Writes the gate's byte.
pub fn set_gate<D: Disk>(disk: &mut D, byte: u8) -> Result<(), Failed>
    ensures reads { OnOk result (D.tells → is_open (reads (D.state disk.new) gate) ≡ (byte == 1)) }
    ensures stable { OnOk result (D.tells → IsStable gate (D.state disk.new)) }
    ensures change { D.tells → GoesOn (SameElsewhere gate) (D.state disk.old) (D.state disk.new) }
    ensures cause { HasCause (D.faults disk.old) (D.faults disk.new) result }
{
    disk.write_at(GATE, 0, &[byte])?;
    disk.sync(GATE)
}

/// Puts one entry. An empty text is an absent file.
fn put_entry<D: Disk>(disk: &mut D, entry: &Entry) -> Result<(), Failed>
    requires { IsDiskName entry.now.name }
    ensures reads { OnOk result (D.tells → reads (D.state disk.new) entry.now.name ≡ unwrap_or entry.now.bytes []) }
    ensures stable { OnOk result (D.tells → IsStable entry.now.name (D.state disk.new)) }
    ensures change { D.tells → GoesOn (SameElsewhere entry.now.name) (D.state disk.old) (D.state disk.new) }
    ensures cause { HasCause (D.faults disk.old) (D.faults disk.new) result }
{
    let name = disk_name(entry.name.bytes());
    match &entry.bytes {
        None => clear(disk, name),
        Some(text) => {
            let bytes = text.bytes();
            if bytes.is_empty() {
                clear(disk, name)
            } else {
                replace(disk, name, bytes)
            }
        }
    }
}

/// Puts the entries, one after another.
pub fn put_entries<D: Disk>(disk: &mut D, entries: &[Entry]) -> Result<(), Failed>
    requires { all_entry_names entries.now ≡ true }
    ensures has { OnOk result (D.tells → (f : Image) → MayLeave (D.state disk.new) f → HasEntries entries.now f) }
    ensures change { D.tells → GoesOn (SameOutside entries.now) (D.state disk.old) (D.state disk.new) }
    ensures cause { HasCause (D.faults disk.old) (D.faults disk.new) result }
{
    for entry in entries {
        put_entry(disk, entry)?;
    }
    Ok(())
}

// Puts all entries or none.
fn put_batch<D: Disk>(disk: &mut D, batch: &Batch) -> Result<(), Failed>
    requires { IsCleanDisk D.Disk disk.old }
    ensures time { D.tells → Continues (D.state disk.old) (D.state disk.new) }
    ensures any_moment { D.tells → Throughout (CommitAt batch.now.entries (D.state disk.old)) (D.state disk.old).moment (D.state disk.new) }
    ensures clean { OnOk result (IsCleanDisk D.Disk disk.new) }
    ensures all { OnOk result (D.tells → (f : Image) → MayLeave (D.state disk.new) f → (from : Image) × MayLeave (D.state disk.old) from × IsAfter batch.now.entries from f) }
    ensures read { OnOk result (D.tells → IsAfter batch.now.entries (reads (D.state disk.old)) (reads (D.state disk.new))) }
    ensures cause { HasCause (D.faults disk.old) (D.faults disk.new) result }
{
    replace(disk, BODY, batch.body())?;
    set_gate(disk, 1)?;
    put_entries(disk, batch.entries())?;
    set_gate(disk, 0)
}

/// Many files of a disk at once. Its functions take the disk.
pub struct Vault;

impl Vault {
    /// Puts all entries and pieces, or no entry and perhaps a part of the pieces. It takes no memory. After `Failed` the
    /// disk is opened again before any other call of the vault.
    pub fn commit<D: Disk>(disk: &mut D, batch: Batch) -> Result<(), Failed>
        requires { IsCleanDisk D.Disk disk.old }
        ensures time { D.tells → Continues (D.state disk.old) (D.state disk.new) }
        // At each moment a stop leaves the files as they were but for the pieces, or with all entries and all pieces.
        ensures any_moment { D.tells → Throughout (BatchAt batch (D.state disk.old)) (D.state disk.old).moment (D.state disk.new) }
        // However it ends, one of the two is read;
        ensures one_of_two { D.tells → IsBeforeBatch batch (reads (D.state disk.old)) (reads (D.state disk.new)) ⊎ IsAfterBatch batch (reads (D.state disk.old)) (reads (D.state disk.new)) }
        // And after Ok all is there, whatever stops then.
        ensures clean { OnOk result (IsCleanDisk D.Disk disk.new) }
        ensures all { OnOk result (D.tells → (f : Image) → MayLeave (D.state disk.new) f → (from : Image) × MayLeave (D.state disk.old) from × IsAfterBatch batch from f) }
        ensures read { OnOk result (D.tells → IsAfterBatch batch (reads (D.state disk.old)) (reads (D.state disk.new))) }
        ensures nothing { batch.entries ≡ [] → batch.pieces ≡ [] → disk.new ≡ disk.old }
        ensures cause { HasCause (D.faults disk.old) (D.faults disk.new) result }
    {
        if batch.is_empty() {
            return Ok(());
        }
        write_pieces(disk, batch.pieces())?;
        put_batch(disk, &batch)
    }
}

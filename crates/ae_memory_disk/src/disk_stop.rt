// What a stop leaves of a disk in memory.
ghost use Rattle.std.specs.Prelude.{◌≡◌, IfOk, OnOk};
ghost use Rattle.ae_outside.specs.Image.{with_file};
ghost use Rattle.ae_memory_disk.specs.DiskFiles.{bytes_of};
ghost use Rattle.ae_memory_disk.specs.DiskLog.{changes_by};
ghost use Rattle.ae_memory_disk.specs.DiskPick.{write_left, cut_left, left_after, picked};

use crate::disk_files::Files;
use crate::disk_log::{Change, Logged};
use ae_base::Text;
use std::alloc::{AllocError, Global};

/// What a stop makes of each byte that was written or cut away since its file's last sync: what it was at that sync,
/// what it reads, the byte 0, or the byte 255. The file has its old length for `Old`, and else its new one.
#[derive(Clone, Copy, Debug, PartialEq, Eq)]
pub enum Pick {
    Old,
    New,
    Zeros,
    Ones,
}

/// The changes of the first so many calls.
pub fn changes_by(log: &[Logged], calls: u64) -> &[Logged]
    ensures { result.now ≡ changes_by calls log.now }
{
    for (at, entry) in log.iter().enumerate() {
        if entry.number > calls {
            return &log[..at];
        }
    }
    log
}

fn leave_write(
    alloc: Global,
    left: &mut Files,
    name: &[u8],
    at: u64,
    bytes: &[u8],
    pick: Pick,
) -> Result<(), AllocError>
    ensures { OnOk result (bytes_of left.new ≡ with_file name.now (write_left pick at bytes.now) (bytes_of left.old)) }
{
    match pick {
        Pick::Old => Ok(()),
        Pick::New => left.write(alloc, name, at, bytes),
        Pick::Zeros => {
            let zeros = vec![in alloc; 0u8; bytes.len()]?;
            left.write(alloc, name, at, &zeros)
        }
        Pick::Ones => {
            let ones = vec![in alloc; 255u8; bytes.len()]?;
            left.write(alloc, name, at, &ones)
        }
    }
}

fn leave_cut(
    alloc: Global,
    left: &mut Files,
    name: &[u8],
    len: u64,
    pick: Pick,
) -> Result<(), AllocError>
    ensures { OnOk result (bytes_of left.new ≡ with_file name.now (cut_left pick len) (bytes_of left.old)) }
{
    match pick {
        Pick::Old => Ok(()),
        Pick::New | Pick::Zeros | Pick::Ones => left.cut(alloc, name, len),
    }
}

// What is left after one more change, where `read` is what was read before it.
fn leave(
    alloc: Global,
    left: &mut Files,
    read: &Files,
    change: &Change,
    pick: Pick,
) -> Result<(), AllocError>
    ensures { OnOk result (bytes_of left.new ≡ left_after pick change.now (bytes_of read.now) (bytes_of left.old)) }
{
    match change {
        Change::Write { name, at, bytes } => {
            leave_write(alloc, left, name.bytes(), *at, bytes.bytes(), pick)
        }
        Change::Cut { name, len } => leave_cut(alloc, left, name.bytes(), *len, pick),
        Change::Sync { name } => {
            let bytes = Text::of(read.bytes_of(name.bytes()).to_vec(alloc)?);
            left.put(alloc, name.bytes(), bytes)
        }
    }
}

/// The files that are left of stable ones after the changes.
pub fn left_files(
    alloc: Global,
    start: &Files,
    log: &[Logged],
    pick: Pick,
) -> Result<Files, AllocError>
    ensures { IfOk result (λ files. bytes_of files ≡ picked pick (bytes_of start.now) log.now) }
{
    let mut read = start.copy(alloc)?;
    let mut left = start.copy(alloc)?;
    for entry in log {
        leave(alloc, &mut left, &read, &entry.change, pick)?;
        read.apply(alloc, &entry.change)?;
    }
    Ok(left)
}

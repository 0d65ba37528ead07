// The log of a disk in memory: the calls that changed or synced it.
ghost use Rattle.std.specs.Prelude.{◌≡◌, IfOk};
ghost use Rattle.ae_memory_disk.specs.declared.disk_log.Change.TheVariants.{Write, Cut, Sync};

use ae_base::Text;
use std::alloc::{AllocError, Global};

/// What a call did to a file: bytes put at an offset, the bytes after a length cut away, or all of it made stable.
#[derive(Drop)]
pub enum Change {
    Write { name: Text, at: u64, bytes: Text },
    Cut { name: Text, len: u64 },
    Sync { name: Text },
}

/// A change, and the number of the call that made it. The first call has the number 1.
#[derive(Drop)]
pub struct Logged {
    pub number: u64,
    pub change: Change,
}

fn text_of(alloc: Global, bytes: &[u8]) -> Result<Text, AllocError>
    ensures { IfOk result (λ text. text ≡ bytes.now) }
{
    Ok(Text::of(bytes.to_vec(alloc)?))
}

impl Change {
    /// Bytes are put into the file of this name from an offset on.
    pub fn write(alloc: Global, name: &str, at: u64, bytes: &[u8]) -> Result<Change, AllocError>
        ensures { IfOk result (λ change. change ≡ Write name.now at bytes.now) }
    {
        Ok(Change::Write {
            name: text_of(alloc, name.as_bytes())?,
            at,
            bytes: text_of(alloc, bytes)?,
        })
    }

    /// The file of this name is cut to a length, in bytes.
    pub fn cut(alloc: Global, name: &str, len: u64) -> Result<Change, AllocError>
        ensures { IfOk result (λ change. change ≡ Cut name.now len) }
    {
        Ok(Change::Cut {
            name: text_of(alloc, name.as_bytes())?,
            len,
        })
    }

    /// All of the file of this name is made stable.
    pub fn sync(alloc: Global, name: &str) -> Result<Change, AllocError>
        ensures { IfOk result (λ change. change ≡ Sync name.now) }
    {
        Ok(Change::Sync {
            name: text_of(alloc, name.as_bytes())?,
        })
    }
}

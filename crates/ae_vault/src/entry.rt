// Files to put, each with its new bytes.
ghost use Rattle.std.specs.Prelude.{◌≡◌, [], ◌∷◌, ◌++◌, length, IfOk, OnOk, OnErr};
ghost use Rattle.ae_outside.specs.DiskNames.{IsDiskName};
ghost use Rattle.ae_vault.specs.Body.{entries_put, entry_put};

use ae_base::Text;
use std::alloc::{AllocError, Global};
use std::marker::Model;

/// A file to put: its name, and its new bytes. `None` and an empty text both make it absent.
#[derive(Drop)]
pub struct Entry {
    pub name: Text,
    pub bytes: Option<Text>,
}

/// Entries, which contracts see as the list of them.
#[derive(Drop)]
pub struct EntryList {
    entries: Vec<Entry>,
}

impl Model for EntryList {
    ghost use Rattle.std.specs.Prelude.{List};
    ghost use Rattle.ae_vault.specs.declared.entry.Entry.{Entry};

    ghost Value = { List Entry };

    ghost view = { λ a. a.entries.items };
}

impl EntryList {
    /// No entries.
    pub fn new(alloc: Global) -> EntryList
        ensures { result ≡ [] }
    {
        EntryList {
            entries: Vec::new(alloc),
        }
    }

    /// The list of these entries.
    pub fn of(entries: Vec<Entry>) -> EntryList
        ensures { result ≡ entries.items }
    {
        EntryList { entries }
    }

    /// Adds an entry at the end.
    pub fn push(&mut self, entry: Entry) -> Result<(), AllocError>
        ensures ok { OnOk result (self.new ≡ self.old ++ entry ∷ []) }
        ensures err { OnErr result (self.new ≡ self.old) }
    {
        self.entries.push(entry)?;
        Ok(())
    }

    /// How many entries there are.
    pub fn len(&self) -> usize
        ensures { result ≡ length self.now }
    {
        self.entries.len()
    }

    /// The entries, in the order of their names.
    pub fn as_slice(&self) -> &[Entry]
        ensures { result.now ≡ self.now }
    {
        self.entries.as_slice()
    }
}

// The entry as it is put: an empty text is an absent file.
fn entry_put(entry: Entry) -> Entry
    ensures { result ≡ entry_put entry }
{
    let Entry { name, bytes } = entry;
    let bytes = match bytes {
        Some(text) => {
            if text.bytes().is_empty() {
                None
            } else {
                Some(text)
            }
        }
        None => None,
    };
    Entry { name, bytes }
}

/// The entries as they are put.
pub(crate) fn entries_put(alloc: Global, entries: EntryList) -> Result<EntryList, AllocError>
    ensures { IfOk result (λ put. put ≡ entries_put entries) }
{
    let mut put = EntryList::new(alloc);
    for entry in entries.entries {
        put.push(entry_put(entry))?;
    }
    Ok(put)
}

// A disk's name as a `str`: all its bytes are ASCII.
pub(crate) fn disk_name(name: &[u8]) -> &str
    requires { IsDiskName name.now }
    ensures { result.now ≡ name.now }
{
    match str::from_utf8(name) {
        Ok(text) => text,
        Err(_) => unreachable!(),
    }
}

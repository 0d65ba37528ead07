// Which entries a batch may have.
ghost use Rattle.std.specs.Prelude.{◌≡◌};
ghost use Rattle.std.specs.Cmp.Lexicographic.{slice_cmp};
ghost use Rattle.std.specs.List.{list_all};
ghost use Rattle.std.specs.Ordering.{is_lt, nat_cmp};
ghost use Rattle.ae_outside.specs.DiskNames.{is_name_byte, is_disk_name};
ghost use Rattle.ae_vault.specs.Pieces.{no_entry_is_pack};
ghost use Rattle.ae_vault.specs.Vault.{is_own, is_entry_name, all_entry_names, names_ascend, are_entries};

use crate::Entry;
use crate::packed::PACK;
use crate::vault::{BODY, GATE};

fn is_name_byte(b: u8) -> bool
    ensures { result ≡ is_name_byte b }
{
    b.is_ascii_lowercase() || b.is_ascii_digit() || b == b'.'
}

fn are_name_bytes(name: &[u8]) -> bool
    ensures { result ≡ list_all is_name_byte name.now }
{
    name.iter().all(|b| is_name_byte(*b))
}

fn is_disk_name(name: &[u8]) -> bool
    ensures { result ≡ is_disk_name name.now }
{
    !name.is_empty() && name.len() <= 64 && are_name_bytes(name)
}

fn is_own(name: &[u8]) -> bool
    ensures { result ≡ is_own name.now }
{
    name == GATE.as_bytes() || name == BODY.as_bytes()
}

fn is_entry_name(name: &[u8]) -> bool
    ensures { result ≡ is_entry_name name.now }
{
    is_disk_name(name) && !is_own(name)
}

fn are_entry_names(entries: &[Entry]) -> bool
    ensures { result ≡ all_entry_names entries.now }
{
    entries
        .iter()
        .all(|entry| is_entry_name(entry.name.bytes()))
}

fn precedes(first: &Entry, second: &Entry) -> bool
    ensures { result ≡ is_lt (slice_cmp nat_cmp first.now.name second.now.name) }
{
    first.name.bytes().cmp(second.name.bytes()).is_lt()
}

fn names_ascend(entries: &[Entry]) -> bool
    ensures { result ≡ names_ascend entries.now }
{
    let mut rest = entries;
    while let [first, second, ..] = rest {
        if !precedes(first, second) {
            return false;
        }
        rest = &rest[1..];
    }
    true
}

/// Whether the names are those of a disk, none of them the vault's own, and ascend.
pub fn are_entries(entries: &[Entry]) -> bool
    ensures { result ≡ are_entries entries.now }
{
    are_entry_names(entries) && names_ascend(entries)
}

/// Whether no entry names the packed file.
pub fn no_entry_is_pack(entries: &[Entry]) -> bool
    ensures { result ≡ no_entry_is_pack entries.now }
{
    entries
        .iter()
        .all(|entry| entry.name.bytes() != PACK.as_bytes())
}

// Entries of a batch, in the order of their names.
ghost use Rattle.std.specs.Prelude.{◌≡◌, ◌∷◌, true, ℕ, List, Some, None, OnOk, if◌then◌else◌};
ghost use Rattle.std.specs.Str.{bytes_eq};
ghost use Rattle.std.specs.Ordering.{nat_cmp};
ghost use Rattle.std.specs.Cmp.Lexicographic.{slice_cmp};
ghost use Rattle.ae_vault.specs.Vault.{content_of, or_else};
ghost use Rattle.ae_store.specs.Changed.{change_of};
ghost use Rattle.ae_store.specs.Batching.{AreOrdered, is_state_name};

use ae_base::Text;
use ae_vault::Entry;
use std::alloc::AllocError;
use std::cmp::Ordering;

// More entries than a batch counts are not made.
const MOST_ENTRIES: usize = 4_294_967_295;

fn compare_names(name: &Text, other: &Text) -> Ordering
    ensures { result ≡ slice_cmp nat_cmp name.now other.now }
{
    name.bytes().cmp(other.bytes())
}

// The entry is put at its place. One of the same name that is there already stays.
fn insert(entries: &mut Vec<Entry>, entry: Entry) -> Result<(), AllocError>
    requires ordered { AreOrdered entries.old.items }
    requires name { is_state_name entry.name ≡ true }
    ensures content { OnOk result ((name : List ℕ) → content_of entries.new.items name ≡ content_of (entry ∷ entries.old.items) name) }
    ensures ordered { OnOk result (AreOrdered entries.new.items) }
{
    if entries.len() >= MOST_ENTRIES {
        return Err(AllocError);
    }
    match entries.binary_search_by(|other| compare_names(&other.name, &entry.name)) {
        Ok(_) => Ok(()),
        Err(at) => {
            entries.insert(at, entry)?;
            Ok(())
        }
    }
}

/// Where the texts differ, the new one is put into the file of this name.
pub(crate) fn put_text(
    entries: &mut Vec<Entry>,
    name: Text,
    old: &[u8],
    new: Vec<u8>,
) -> Result<(), AllocError>
    requires ordered { AreOrdered entries.old.items }
    requires name { is_state_name name ≡ true }
    ensures content { OnOk result ((other : List ℕ) → content_of entries.new.items other ≡ or_else (content_of entries.old.items other) (if bytes_eq name other then change_of old.now new.items else None)) }
    ensures ordered { OnOk result (AreOrdered entries.new.items) }
{
    if old == new.as_slice() {
        return Ok(());
    }
    let entry = Entry {
        name,
        bytes: Some(Text::of(new)),
    };
    insert(entries, entry)
}

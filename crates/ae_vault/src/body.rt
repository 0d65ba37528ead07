// The body: reading and writing it.
ghost use Rattle.std.specs.Prelude.{◌≡◌, ◌<◌, ◌≤◌, ◌^◌, ◌++◌, [], length, true, Some, None, unwrap_or, IfOk, OnOk, IsErrOf};
ghost use Rattle.ae_vault.specs.Body.{Fit, body_of, entry_bytes};
ghost use Rattle.ae_vault.specs.Vault.{body_entries, entries_read, entry_read, kind_read, bytes_read, all_entry_names};

use crate::names::are_entries;
use crate::{Entry, VaultError};
use ae_base::Text;
use std::alloc::{AllocError, Global};

/// The entries of a body; `Damaged` exactly where it isn't in its grammar.
pub fn read_body(alloc: Global, bytes: &[u8]) -> Result<Vec<Entry>, VaultError>
    ensures entries { IfOk result (λ entries. body_entries bytes.now ≡ Some entries.items) }
    ensures names { IfOk result (λ entries. all_entry_names entries.items ≡ true) }
    ensures damaged { IsErrOf result VaultError.Damaged → body_entries bytes.now ≡ None }
    ensures no_fault { IsErrOf result VaultError.DiskFault → ⊥ }
{
    if bytes.len() < 4 {
        return Err(VaultError::Damaged);
    }
    let (front, rest) = bytes.split_at(4);
    let count = u32::from_le_bytes([front[0], front[1], front[2], front[3]]);
    let entries = read_entries(alloc, count, rest)?;
    if !are_entries(&entries) {
        return Err(VaultError::Damaged);
    }
    Ok(entries)
}

// So many entries, and nothing after them.
fn read_entries(alloc: Global, count: u32, bytes: &[u8]) -> Result<Vec<Entry>, VaultError>
    ensures entries { IfOk result (λ entries. entries_read count bytes.now ≡ Some entries.items) }
    ensures damaged { IsErrOf result VaultError.Damaged → entries_read count bytes.now ≡ None }
    ensures no_fault { IsErrOf result VaultError.DiskFault → ⊥ }
{
    let mut entries = Vec::new(alloc);
    let mut rest = bytes;
    for done in 0..count {
        let (entry, after) = read_entry(alloc, rest)?;
        entries.push(entry)?;
        rest = after;
    }
    if !rest.is_empty() {
        return Err(VaultError::Damaged);
    }
    Ok(entries)
}

// Adds an entry's text at the end of a body.
fn write_entry(body: &mut Vec<u8>, entry: &Entry) -> Result<(), AllocError>
    requires { length entry.now.name ≤ 64 }
    ensures written { OnOk result (body.new.items ≡ body.old.items ++ entry_bytes entry.now) }
    ensures fits { OnOk result (length (unwrap_or entry.now.bytes []) < 2 ^ 64) }
{
    let name = entry.name.bytes();
    body.push(name.len() as u8)?;
    body.extend_from_slice(name)?;
    match &entry.bytes {
        None => body.push(0)?,
        Some(text) => {
            let bytes = text.bytes();
            body.push(1)?;
            body.extend_from_slice(&(bytes.len() as u64).to_le_bytes())?;
            body.extend_from_slice(bytes)?;
        }
    }
    Ok(())
}

/// The body that says these entries.
pub fn write_body(alloc: Global, entries: &[Entry]) -> Result<Vec<u8>, AllocError>
    requires names { all_entry_names entries.now ≡ true }
    requires count { length entries.now < 2 ^ 32 }
    ensures body { IfOk result (λ body. body.items ≡ body_of entries.now) }
    ensures fit { OnOk result (Fit entries.now) }
{
    let mut body = Vec::new(alloc);
    body.extend_from_slice(&(entries.len() as u32).to_le_bytes())?;
    for entry in entries {
        write_entry(&mut body, entry)?;
    }
    Ok(body)
}

fn copy_text(alloc: Global, bytes: &[u8]) -> Result<Text, VaultError>
    ensures text { IfOk result (λ text. text ≡ bytes.now) }
    ensures memory { IsErrOf result VaultError.Damaged → ⊥ }
    ensures no_fault { IsErrOf result VaultError.DiskFault → ⊥ }
{
    Ok(Text::of(Vec::from_slice(alloc, bytes)?))
}

fn read_bytes(alloc: Global, name: Text, rest: &[u8]) -> Result<(Entry, &[u8]), VaultError>
    ensures ok { IfOk result (λ r. bytes_read name rest.now ≡ Some (r.0, r.1.now)) }
    ensures damaged { IsErrOf result VaultError.Damaged → bytes_read name rest.now ≡ None }
    ensures no_fault { IsErrOf result VaultError.DiskFault → ⊥ }
{
    if rest.len() < 8 {
        return Err(VaultError::Damaged);
    }
    let (front, rest) = rest.split_at(8);
    let len = u64::from_le_bytes([
        front[0], front[1], front[2], front[3], front[4], front[5], front[6], front[7],
    ]);
    let len = len as usize;
    if rest.len() < len {
        return Err(VaultError::Damaged);
    }
    let (bytes, rest) = rest.split_at(len);
    let bytes = copy_text(alloc, bytes)?;
    Ok((
        Entry {
            name,
            bytes: Some(bytes),
        },
        rest,
    ))
}

fn read_kind(alloc: Global, name: Text, bytes: &[u8]) -> Result<(Entry, &[u8]), VaultError>
    ensures ok { IfOk result (λ r. kind_read name bytes.now ≡ Some (r.0, r.1.now)) }
    ensures damaged { IsErrOf result VaultError.Damaged → kind_read name bytes.now ≡ None }
    ensures no_fault { IsErrOf result VaultError.DiskFault → ⊥ }
{
    match bytes {
        [] => Err(VaultError::Damaged),
        [kind, rest @ ..] => {
            if *kind == 0 {
                Ok((Entry { name, bytes: None }, rest))
            } else if *kind == 1 {
                read_bytes(alloc, name, rest)
            } else {
                Err(VaultError::Damaged)
            }
        }
    }
}

fn read_entry(alloc: Global, bytes: &[u8]) -> Result<(Entry, &[u8]), VaultError>
    ensures ok { IfOk result (λ r. entry_read bytes.now ≡ Some (r.0, r.1.now)) }
    ensures damaged { IsErrOf result VaultError.Damaged → entry_read bytes.now ≡ None }
    ensures no_fault { IsErrOf result VaultError.DiskFault → ⊥ }
{
    match bytes {
        [] => Err(VaultError::Damaged),
        [n, rest @ ..] => {
            let n = *n as usize;
            if rest.len() < n {
                return Err(VaultError::Damaged);
            }
            let (name, rest) = rest.split_at(n);
            let name = copy_text(alloc, name)?;
            read_kind(alloc, name, rest)
        }
    }
}

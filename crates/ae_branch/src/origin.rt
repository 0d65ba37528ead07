// The file of a branch that names the delta of the trunk from which it was begun.
ghost use Rattle.std.specs.Prelude.{◌≡◌, ◌≤◌, ◌++◌, ℕ, List, Some, IfNone, IfOk, IfSome};
ghost use Rattle.ae_base.specs.Limits.{most_deltas};
ghost use Rattle.ae_outside.specs.State.{reads};
ghost use Rattle.ae_vault.specs.Disk.{DiskFailed, IsCleanDisk, OnlyReads};
ghost use Rattle.ae_branch.specs.Origin.{IsDamagedOrigin, NamesDelta, NamesOrigin, origin_bytes, origin_text};
ghost use Rattle.ae_branch.specs.Steps.{AnswersAs};

use ae_base::{Delta, Outcome, Refusal, Text};
use ae_outside::{Disk, ReadError};
use ae_vault::Vault;
use std::alloc::{AllocError, Global};

// Its name.
const ORIGIN: &str = "trunk";

// How much of it is read: more than the longest text has.
const BYTES_READ: usize = 16;

/// Its text.
pub(crate) fn origin_text(alloc: Global, delta: Delta) -> Result<Text, AllocError>
    ensures { IfOk result (λ text. text ≡ origin_text delta) }
{
    let text = format!(in alloc; "delta = {delta};\n")?;
    Ok(Text::of(text.into_bytes()))
}

/// The file is damaged.
pub(crate) fn damaged_origin(alloc: Global) -> Outcome
    ensures { IsDamagedOrigin result }
{
    match Vec::from_slice(alloc, b"trunk") {
        Ok(name) => Outcome::Damaged(Text::of(name)),
        Err(_) => Outcome::Memory,
    }
}

// What stands after such a front, where the text begins with it.
fn text_after<'a>(front: &[u8], text: &'a [u8]) -> Option<&'a [u8]>
    ensures some { IfSome result (λ rest. text.now ≡ front.now ++ rest.now) }
    ensures none { IfNone result ((rest : List ℕ) → text.now ≡ front.now ++ rest → ⊥) }
{
    text.strip_prefix(front)
}

// What stands before such an end, where the text ends with it.
fn text_before<'a>(end: &[u8], text: &'a [u8]) -> Option<&'a [u8]>
    ensures some { IfSome result (λ rest. text.now ≡ rest.now ++ end.now) }
    ensures none { IfNone result ((rest : List ℕ) → text.now ≡ rest ++ end.now → ⊥) }
{
    text.strip_suffix(end)
}

// The number that stands where a text of this file has its own.
fn number_in(text: &[u8]) -> Option<Delta>
    ensures { (delta : ℕ) → delta ≤ most_deltas → text.now ≡ origin_text delta → result ≡ Some delta }
{
    let Some(rest) = text_after(b"delta = ", text) else {
        return None;
    };
    match text_before(b";\n", rest) {
        Some(digits) => Delta::read(digits),
        None => None,
    }
}

// The delta that a text names, where it is the text of one.
fn named_by(alloc: Global, text: &[u8]) -> Result<Option<Delta>, AllocError>
    ensures { IfOk result (NamesDelta text.now) }
{
    let Some(delta) = number_in(text) else {
        return Ok(None);
    };
    let _number = delta.number();
    let written = origin_text(alloc, delta)?;
    if written.bytes() == text {
        Ok(Some(delta))
    } else {
        Ok(None)
    }
}

// What a text that is short enough says.
fn understood(alloc: Global, text: &[u8]) -> Result<Delta, Outcome>
    ensures { AnswersAs (Unit {0}) (NamesOrigin text.now) ⊥ result }
{
    if text.is_empty() {
        return Err(Outcome::Refused(Refusal::NotABranch));
    }
    match named_by(alloc, text) {
        Ok(Some(delta)) => Ok(delta),
        Ok(None) => Err(damaged_origin(alloc)),
        Err(_) => Err(Outcome::Memory),
    }
}

/// The delta that the file names. Where it is longer than the text of any delta no more of it is read than shows that.
pub(crate) fn read_origin<B: Disk>(alloc: Global, disk: &mut B) -> Result<Delta, Outcome>
    requires clean { IsCleanDisk B.Disk disk.old }
    ensures answer { AnswersAs B.tells (NamesOrigin (origin_bytes (reads (B.state disk.old))))
        (DiskFailed B.Disk disk.old disk.new) result }
    ensures same { OnlyReads B.Disk disk.old disk.new }
    ensures later { B.faults disk.old ≤ B.faults disk.new }
{
    match Vault::get_range(alloc, disk, ORIGIN, 0, BYTES_READ) {
        Ok(text) => understood(alloc, &text),
        Err(ReadError::Failed) => Err(Outcome::DiskFault),
        Err(ReadError::Memory) => Err(Outcome::Memory),
    }
}

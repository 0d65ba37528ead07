// What the generator tells of the project that it made.
ghost use Rattle.std.specs.Prelude.{◌≡◌, ◌++◌, IfOk, OnOk, codes, min};
ghost use Rattle.hex.specs.Hex.{encode_lower};
ghost use Rattle.ae_evidence.specs.Digest.{digest_rows};
ghost use Rattle.ae_session.specs.Summary.{number_line, bytes_of, most_told, summary_text};

use ae_evidence::{digest_rows, digest_text};
use ae_files::tree_at;
use ae_machine::last_delta;
use ae_types::{State, TreeRow, TreeRows};
use itoa::Buffer;
use std::alloc::{AllocError, Global};

// The bytes of all files, where they are fewer than 2^64.
fn bytes_of(files: &[TreeRow]) -> u64
    ensures { result ≡ min (bytes_of files.now) most_told }
{
    let mut bytes: u64 = 0;
    for file in files {
        bytes = bytes.saturating_add(u64::from(file.version.length));
    }
    bytes
}

// A name and its number are put at the end.
fn put_number(text: &mut Vec<u8>, name: &str, number: u64) -> Result<(), AllocError>
    ensures { OnOk result (text.new.items ≡ text.old.items ++ number_line name.now number) }
{
    let mut buffer = Buffer::new();
    text.extend_from_slice(name.as_bytes())?;
    text.extend_from_slice(b" ")?;
    text.extend_from_slice(buffer.format(number).as_bytes())?;
    text.extend_from_slice(b"\n")
}

// The line of the digest of these files is put at the end.
fn put_digest(alloc: Global, text: &mut Vec<u8>, files: &TreeRows) -> Result<(), AllocError>
    ensures { OnOk result (text.new.items ≡ text.old.items ++ (codes "digest " ++ (encode_lower (digest_rows files.now) ++ codes "\n"))) }
{
    let digest = digest_text(alloc, &digest_rows(files))?;
    text.extend_from_slice(b"digest ")?;
    text.extend_from_slice(digest.bytes())?;
    text.extend_from_slice(b"\n")
}

/// The lines on a project and its baseline, and on how many runs were made.
pub(crate) fn summary(alloc: Global, state: &State, runs: u64) -> Result<Vec<u8>, AllocError>
    ensures { IfOk result (λ text. text.items ≡ summary_text state.now runs) }
{
    let files = tree_at(alloc, state, last_delta(state))?;
    let mut text = Vec::new(alloc);
    put_number(&mut text, "changes", state.changes().len() as u64)?;
    put_number(&mut text, "deltas", state.project().deltas.len() as u64)?;
    put_number(&mut text, "files", files.len() as u64)?;
    put_number(&mut text, "bytes", bytes_of(files.as_slice()))?;
    put_number(&mut text, "runs", runs)?;
    put_digest(alloc, &mut text, &files)?;
    Ok(text)
}

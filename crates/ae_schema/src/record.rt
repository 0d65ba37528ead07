// A state file: one record.
ghost use Rattle.std.specs.Prelude.{◌≡◌, ℕ, Err, length, map, unwrap_or, slice_get, IfOk};
ghost use Rattle.ae_text.specs.Grammar.{Reads, line_after};
ghost use Rattle.ae_schema.specs.Records.{named, structure, IsStructure, IsTextOf, IsBadLine, last_line, refusal_of, stop_error};
ghost use Rattle.ae_text.specs.Wrong.{IsError};
ghost use Rattle.ae_text.specs.View.{node, fields_seen};

use crate::SchemaError;
use crate::canonical::Cursor;
use crate::fields::{Fields, Stop};
use crate::parts::fields_in;
use ae_text::{Field, LineList, Parsed, TextError, read_tree};
use std::alloc::{AllocError, Global};

fn line_behind(ends: usize) -> u32
    ensures { result ≡ line_after ends }
{
    if ends < 4_294_967_294 {
        (1 + ends) as u32
    } else {
        4_294_967_295
    }
}

// The line of the end of the bytes.
fn end_line(bytes: &[u8]) -> u32
    ensures { result ≡ last_line bytes.now }
{
    line_behind(bytes.iter().filter(|b| **b == b'\n').count())
}

/// The line of a field, or that of the end.
pub(crate) fn line_at(bytes: &[u8], lines: &[u32], at: usize) -> u32
    ensures { result ≡ unwrap_or (slice_get lines.now at) (last_line bytes.now) }
{
    match lines.get(at) {
        Some(line) => *line,
        None => end_line(bytes),
    }
}

/// The fields of a text that was read.
pub(crate) fn fields_of(parsed: &Parsed) -> &[Field]
    requires { IsStructure (node parsed.now.tree) }
    ensures { node parsed.now.tree ≡ structure (fields_seen result.now) }
{
    match fields_in(&parsed.tree) {
        Some(fields) => fields,
        None => unreachable!(),
    }
}

fn refusal(error: TextError) -> SchemaError
    ensures { result ≡ refusal_of error }
{
    match error {
        TextError::Syntax(line) => SchemaError::Field(line),
        TextError::TooDeep(line) => SchemaError::Field(line),
        TextError::Memory => SchemaError::Memory,
    }
}

/// The text, or the line of its first wrong token.
pub(crate) fn read_text(alloc: Global, bytes: &[u8]) -> Result<Parsed, SchemaError>
    ensures found { IfOk result (λ p. Reads bytes.now (node p.tree) p.lines) }
    ensures bad { (line : ℕ) → result ≡ Err (SchemaError.Field line) → IsError bytes.now line }
{
    match read_tree(alloc, bytes) {
        Ok(parsed) => Ok(parsed),
        Err(error) => Err(refusal(error)),
    }
}

// The line of the place where the reader stopped.
fn stop_line(bytes: &[u8], lines: &LineList, stop: Stop) -> SchemaError
    ensures { result ≡ stop_error bytes.now lines.now stop }
{
    match stop {
        Stop::Bad(at) => SchemaError::Field(line_at(bytes, lines.lines(), at)),
        Stop::Memory => SchemaError::Memory,
    }
}

// The values of the record whose text was read.
fn record_of<R: Fields>(
    alloc: Global,
    names: &[&[u8]],
    bytes: &[u8],
    parsed: &Parsed,
) -> Result<R, SchemaError>
    requires names { length names.now ≡ R.count }
    requires reads { Reads bytes.now (node parsed.now.tree) parsed.now.lines }
    ensures found { IfOk result (λ x. IsTextOf bytes.now (named (map (λ s. s.now) names.now) (R.values x))) }
    ensures fits { IfOk result R.Fits }
    ensures only { (x : R) → R.Fits x → IsTextOf bytes.now (named (map (λ s. s.now) names.now) (R.values x)) → IfOk result (λ y. y ≡ x) }
    ensures bad { (line : ℕ) → result ≡ Err (SchemaError.Field line) → IsBadLine R.Fits (λ x. named (map (λ s. s.now) names.now) (R.values x)) bytes.now line }
{
    match R::read(alloc, names, fields_of(parsed)) {
        Ok(record) => Ok(record),
        Err(stop) => Err(stop_line(bytes, &parsed.lines, stop)),
    }
}

/// The values of the record whose fields have these names and of which the bytes are a text.
pub(crate) fn read_record<R: Fields>(
    alloc: Global,
    names: &[&[u8]],
    bytes: &[u8],
) -> Result<R, SchemaError>
    requires { length names.now ≡ R.count }
    ensures found { IfOk result (λ x. IsTextOf bytes.now (named (map (λ s. s.now) names.now) (R.values x))) }
    ensures fits { IfOk result R.Fits }
    ensures only { (x : R) → R.Fits x → IsTextOf bytes.now (named (map (λ s. s.now) names.now) (R.values x)) → IfOk result (λ y. y ≡ x) }
    ensures bad { (line : ℕ) → result ≡ Err (SchemaError.Field line) → IsBadLine R.Fits (λ x. named (map (λ s. s.now) names.now) (R.values x)) bytes.now line }
{
    match read_text(alloc, bytes) {
        Ok(parsed) => record_of::<R>(alloc, names, bytes, &parsed),
        Err(error) => Err(error),
    }
}

/// The values of a text in canonical form whose fields have these names: a guess, of which nothing is promised.
pub(crate) fn guess_record<R: Fields>(
    alloc: Global,
    names: &[&[u8]],
    bytes: &[u8],
) -> Result<Option<R>, AllocError> {
    let mut text = Cursor::new(bytes);
    R::guess(alloc, names, b";\n", &mut text)
}

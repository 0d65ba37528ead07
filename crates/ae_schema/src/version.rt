// How versions and digests are spelled.
ghost use Rattle.std.specs.Prelude.{◌≡◌, ◌↔◌, [], ℕ, List, Some, IsTrue, IfOk, IfSome, length};
ghost use Rattle.hex.specs.Hex.{encode_lower};
ghost use Rattle.ae_schema.specs.Fits.{IsDigest};
ghost use Rattle.ae_schema.specs.Shapes.{version_from};
ghost use Rattle.ae_text.specs.View.{node};
ghost use Rattle.ae_schema.specs.Records.{structure};

use crate::canonical::Cursor;
use crate::fields::{End, Then};
use crate::parts::{fields_in, string_in};
use crate::structure::{guess_structure, read_structure};
use crate::value::{Decode, Encode, Row, guess_optional, put_both, put_structure};
use ae_text::{Field, Tree, put_string};
use ae_types::VersionRef;
use std::alloc::{AllocError, Global};

// The digest, where the text is its hex digits.
fn same_digits(
    alloc: Global,
    digest: &[u8; 32],
    text: &[u8],
) -> Result<Option<[u8; 32]>, AllocError>
    ensures some { IfOk result (λ read. IfSome read (λ x. IsDigest x × (encode_lower x ≡ text.now))) }
    ensures only { encode_lower digest.now ≡ text.now → IfOk result (λ read. read ≡ Some digest.now) }
{
    let digits = hex::encode(alloc, *digest)?;
    if digits.as_bytes() == text {
        Ok(Some(*digest))
    } else {
        Ok(None)
    }
}

// The digest of which the text is the hex digits, in lower case.
fn digest_of(alloc: Global, text: &[u8]) -> Result<Option<[u8; 32]>, AllocError>
    ensures some { IfOk result (λ read. IfSome read (λ x. IsDigest x × (encode_lower x ≡ text.now))) }
    ensures only { (x : List ℕ) → IsDigest x → encode_lower x ≡ text.now → IfOk result (λ read. read ≡ Some x) }
{
    let mut digest = [0; 32];
    match hex::decode_to_slice(text, &mut digest) {
        Ok(()) => same_digits(alloc, &digest, text),
        Err(_) => Ok(None),
    }
}

// The bytes that the text writes in hex digits, in lower case or not.
fn decoded(text: &[u8]) -> Option<[u8; 32]> {
    let mut digest = [0; 32];
    match hex::decode_to_slice(text, &mut digest) {
        Ok(()) => Some(digest),
        Err(_) => None,
    }
}

impl Decode for [u8; 32] {
    ghost use Rattle.ae_schema.specs.Spelled.{hex_string};
    ghost use Rattle.ae_schema.specs.Fits.{IsDigest};
    ghost use Rattle.ae_schema.specs.SomeValues.{some_digest};

    ghost spelled = { hex_string };

    ghost Fits = { IsDigest };

    fn of_tree(alloc: Global, tree: &Tree) -> Result<Option<[u8; 32]>, AllocError> {
        match string_in(tree) {
            Some(text) => digest_of(alloc, text),
            None => Ok(None),
        }
    }

    fn guess(_alloc: Global, text: &mut Cursor) -> Result<Option<[u8; 32]>, AllocError> {
        match text.name() {
            Some(digits) => Ok(decoded(digits)),
            None => Ok(None),
        }
    }

    ghost some_value = { some_digest };
}

impl Encode for [u8; 32] {
    fn put(&self, out: &mut Vec<u8>) -> Result<(), AllocError> {
        let mut digits = [0; 64];
        match hex::encode_to_slice(*self, &mut digits) {
            Ok(()) => put_string(out, &digits),
            Err(_) => unreachable!(),
        }
    }
}

// The names of its fields.
const VERSION_NAMES: [&[u8]; 4] = [b"number", b"at", b"length", b"digest"];

type VersionFields = Then<u64, Then<u64, Then<u32, Then<[u8; 32], End>>>>;

impl Decode for VersionRef {
    ghost use Rattle.ae_schema.specs.Spelled.{version};
    ghost use Rattle.ae_schema.specs.Fits.{FitsVersion};
    ghost use Rattle.ae_schema.specs.SomeValues.{some_version};

    ghost spelled = { version };

    ghost Fits = { FitsVersion };

    fn of_tree(alloc: Global, tree: &Tree) -> Result<Option<VersionRef>, AllocError> {
        match read_structure::<VersionFields>(alloc, &VERSION_NAMES, tree)? {
            Some(fields) => Ok(Some(version_of(fields))),
            None => Ok(None),
        }
    }

    fn guess(alloc: Global, text: &mut Cursor) -> Result<Option<VersionRef>, AllocError> {
        match guess_structure::<VersionFields>(alloc, &VERSION_NAMES, text)? {
            Some(fields) => Ok(Some(version_of(fields))),
            None => Ok(None),
        }
    }

    ghost some_value = { some_version };
}

impl Encode for VersionRef {
    fn put(&self, out: &mut Vec<u8>) -> Result<(), AllocError> {
        put_structure(out, self)
    }
}

impl Row for VersionRef {
    fn put_fields(&self, out: &mut Vec<u8>) -> Result<(), AllocError> {
        put_both(out, b"number", &self.number, b"at", &self.at)?;
        put_both(out, b"length", &self.length, b"digest", &self.digest)?;
        Ok(())
    }
}

fn version_of(fields: VersionFields) -> VersionRef
    ensures { result ≡ version_from fields }
{
    let Then {
        first: number,
        rest,
    } = fields;
    let Then { first: at, rest } = rest;
    let Then {
        first: length,
        rest,
    } = rest;
    let Then {
        first: digest,
        rest: End,
    } = rest;
    VersionRef {
        number,
        at,
        length,
        digest,
    }
}

fn has_none(fields: &[Field]) -> bool
    ensures { IsTrue result ↔ (length fields.now ≡ 0) }
{
    fields.is_empty()
}

fn is_empty_structure(tree: &Tree) -> bool
    ensures { IsTrue result ↔ (node tree.now ≡ structure []) }
{
    match fields_in(tree) {
        Some(fields) => has_none(fields),
        None => false,
    }
}

impl Decode for Option<VersionRef> {
    ghost use Rattle.std.specs.Prelude.{None, IfSome};
    ghost use Rattle.ae_schema.specs.Spelled.{optional_version};
    ghost use Rattle.ae_schema.specs.Fits.{FitsVersion};

    ghost spelled = { optional_version };

    ghost Fits = { λ version. IfSome version FitsVersion };

    fn of_tree(alloc: Global, tree: &Tree) -> Result<Option<Option<VersionRef>>, AllocError> {
        if is_empty_structure(tree) {
            return Ok(Some(None));
        }
        match VersionRef::of_tree(alloc, tree)? {
            Some(version) => Ok(Some(Some(version))),
            None => Ok(None),
        }
    }

    fn guess(alloc: Global, text: &mut Cursor) -> Result<Option<Option<VersionRef>>, AllocError> {
        guess_optional(alloc, b"{ }", text)
    }

    ghost some_value = { (None, tt) };
}

impl Encode for Option<VersionRef> {
    fn put(&self, out: &mut Vec<u8>) -> Result<(), AllocError> {
        match self {
            Some(version) => version.put(out),
            None => out.extend_from_slice(b"{ }"),
        }
    }
}

// Structures: values that are records themselves.
ghost use Rattle.std.specs.Prelude.{◌≡◌, length, map, Some, IfOk, IfSome};
ghost use Rattle.ae_text.specs.View.{node};
ghost use Rattle.ae_schema.specs.Records.{named, structure};

use crate::canonical::Cursor;
use crate::fields::{Fields, Stop};
use crate::parts::fields_in;
use ae_text::Tree;
use std::alloc::{AllocError, Global};

/// The values of a structure whose fields have just these names.
pub(crate) fn read_structure<R: Fields>(
    alloc: Global,
    names: &[&[u8]],
    tree: &Tree,
) -> Result<Option<R>, AllocError>
    requires { length names.now ≡ R.count }
    ensures some { IfOk result (λ read. IfSome read (λ x. R.Fits x × (structure (named (map (λ s. s.now) names.now) (R.values x)) ≡ node tree.now))) }
    ensures only { (x : R) → R.Fits x → structure (named (map (λ s. s.now) names.now) (R.values x)) ≡ node tree.now → IfOk result (λ read. read ≡ Some x) }
{
    let Some(fields) = fields_in(tree) else {
        return Ok(None);
    };
    match R::read(alloc, names, fields) {
        Ok(row) => Ok(Some(row)),
        Err(Stop::Bad(_)) => Ok(None),
        Err(Stop::Memory) => Err(AllocError),
    }
}

/// Passes over a structure in canonical form whose fields have these names.
pub(crate) fn guess_structure<R: Fields>(
    alloc: Global,
    names: &[&[u8]],
    text: &mut Cursor,
) -> Result<Option<R>, AllocError> {
    if !text.skip(b"{ ") {
        return Ok(None);
    }
    match R::guess(alloc, names, b"; ", text)? {
        Some(fields) if text.skip(b"}") => Ok(Some(fields)),
        _ => Ok(None),
    }
}

// The fields of a text: which one is wrong, and what they give.
ghost use Rattle.std.specs.Prelude.{◌≡◌, position, IfOk, option_copied};
ghost use Rattle.std.specs.Option.{option_map};
ghost use Rattle.std.specs.Str.{bytes_eq};
ghost use Rattle.std.specs.Map.{lookup};
ghost use Rattle.ae_text.specs.View.{node, named_node, fields_seen};
ghost use Rattle.ae_conf.specs.Values.{text_in, flag_in};
ghost use Rattle.ae_conf.specs.Fields.{kinds_seen, is_wrong, first_wrong, given};

use crate::kind::FieldKind;
use crate::values::{flag_in, text_in};
use ae_base::Text;
use ae_text::{Field, Tree};
use std::alloc::{AllocError, Global};

/// The fields that a file may have, each with its kind.
pub(crate) type Kinds<'a> = &'a [(&'a str, FieldKind)];

fn kind_of(kinds: Kinds, name: &[u8]) -> Option<FieldKind>
    ensures { result ≡ lookup (bytes_eq name.now) (kinds_seen kinds.now) }
{
    for (known, kind) in kinds {
        if name == known.as_bytes() {
            return Some(*kind);
        }
    }
    None
}

// Whether it is a known field whose value is of a wrong kind.
fn is_wrong(kinds: Kinds, field: &Field) -> bool
    ensures { result ≡ is_wrong (kinds_seen kinds.now) (named_node field.now) }
{
    match kind_of(kinds, field.name.bytes()) {
        Some(kind) => !kind.has(&field.value),
        None => false,
    }
}

// How many fields stand before the first one that is wrong.
fn wrong_place(kinds: Kinds, fields: &[Field]) -> Option<usize>
    ensures { result ≡ position (λ field. is_wrong (kinds_seen kinds.now) (named_node field)) fields.now }
{
    fields.iter().position(|field| is_wrong(kinds, field))
}

/// The line of the first field that is wrong.
pub(crate) fn first_wrong(kinds: Kinds, fields: &[Field], lines: &[u32]) -> Option<u32>
    ensures { result ≡ first_wrong (kinds_seen kinds.now) (fields_seen fields.now) lines.now }
{
    match wrong_place(kinds, fields) {
        Some(at) => lines.get(at).copied(),
        None => None,
    }
}

/// The value of the field of this name.
pub(crate) fn value_of<'a>(fields: &'a [Field], name: &[u8]) -> Option<&'a Tree>
    ensures { option_map node (option_copied result) ≡ lookup (bytes_eq name.now) (fields_seen fields.now) }
{
    for field in fields {
        if name == field.name.bytes() {
            return Some(&field.value);
        }
    }
    None
}

/// The string that the field of this name gives, or else the old one.
pub(crate) fn text_or(
    alloc: Global,
    fields: &[Field],
    name: &[u8],
    old: &Text,
) -> Result<Text, AllocError>
    ensures { IfOk result (λ text. text ≡ given text_in name.now (fields_seen fields.now) old.now) }
{
    match value_of(fields, name).and_then(text_in) {
        Some(text) => text.copy(alloc),
        None => old.copy(alloc),
    }
}

/// The flag that the field of this name gives, or else the old one.
pub(crate) fn flag_or(fields: &[Field], name: &[u8], old: bool) -> bool
    ensures { result ≡ given flag_in name.now (fields_seen fields.now) old }
{
    value_of(fields, name).and_then(flag_in).unwrap_or(old)
}

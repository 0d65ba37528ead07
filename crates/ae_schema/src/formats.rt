// Which format a text of `project` is of.
ghost use Rattle.std.specs.Prelude.{◌≡◌, ℕ, List, ◌∷◌, Err, IfOk, IfSome, IfNone};
ghost use Rattle.ae_text.specs.Tree.{number};
ghost use Rattle.ae_text.specs.View.{fields_seen, named_node, node};
ghost use Rattle.ae_schema.specs.Formats.{format_number, format_field, HasNoFormat, IsOfFormat};
ghost use Rattle.ae_schema.specs.Records.{IsAnswer, IsRefusal, Named};

use crate::project::read_printed;
use crate::record::{fields_of, line_at, read_text};
use crate::{Format, SchemaError};
use ae_text::{Field, Tree};
use std::alloc::Global;

// The format of which the value is the number.
fn format_in(tree: &Tree) -> Option<Format>
    ensures some { IfSome result (λ format. number (format_number format) ≡ node tree.now) }
    ensures none { IfNone result ((format : Format) → number (format_number format) ≡ node tree.now → ⊥) }
{
    match tree {
        Tree::Number(1) => Some(Format::One),
        Tree::Number(2) => Some(Format::Two),
        _ => None,
    }
}

// The format that the field tells.
fn format_told(field: &Field) -> Option<Format>
    ensures some { IfSome result (λ format. format_field format ≡ named_node field.now) }
    ensures none { IfNone result ((format : Format) → format_field format ≡ named_node field.now → ⊥) }
{
    if field.name.bytes() != b"format".as_slice() {
        return None;
    }
    format_in(&field.value)
}

// The format that the first of these fields tells.
fn format_of(fields: &[Field]) -> Option<Format>
    ensures some { IfSome result (λ format. (more : List Named) × (fields_seen fields.now ≡ format_field format ∷ more)) }
    ensures none { IfNone result ((format : Format) (more : List Named) → fields_seen fields.now ≡ format_field format ∷ more → ⊥) }
{
    match fields {
        [field, ..] => format_told(field),
        [] => None,
    }
}

// The number of the format that any text tells.
fn read_any_text(alloc: Global, bytes: &[u8]) -> Result<u64, SchemaError>
    ensures found { IfOk result (λ number. (format : Format) × (number ≡ format_number format) × IsOfFormat format bytes.now) }
    ensures only { (format : Format) → IsOfFormat format bytes.now → IsAnswer (format_number format) result }
    ensures field { (line : ℕ) → result ≡ Err (SchemaError.Field line) → HasNoFormat bytes.now line }
    ensures only_field { (line : ℕ) → HasNoFormat bytes.now line → IsRefusal line result }
{
    let parsed = match read_text(alloc, bytes) {
        Ok(parsed) => parsed,
        Err(error) => return Err(error),
    };
    match format_of(fields_of(&parsed)) {
        Some(format) => Ok(format.number()),
        None => Err(SchemaError::Field(line_at(bytes, parsed.lines.lines(), 0))),
    }
}

/// The number of the format of which the bytes, a text of `project`, say that they are: 1 or 2.
pub fn read_format(alloc: Global, bytes: &[u8]) -> Result<u64, SchemaError>
    // The bytes are a text whose first field tells the format of this number.
    ensures found { IfOk result (λ number. (format : Format) × (number ≡ format_number format) × IsOfFormat format bytes.now) }
    // Where a text's first field tells a format, its number comes.
    ensures only { (format : Format) → IsOfFormat format bytes.now → IsAnswer (format_number format) result }
    // A line is that of the first token that can't stand there, or of the first field, which tells no format.
    ensures field { (line : ℕ) → result ≡ Err (SchemaError.Field line) → HasNoFormat bytes.now line }
    // Where there is such a line, it comes.
    ensures only_field { (line : ℕ) → HasNoFormat bytes.now line → IsRefusal line result }
{
    match read_printed(alloc, bytes) {
        Ok(Some(printed)) => {
            drop(printed);
            Ok(Format::Two.number())
        }
        Ok(None) => read_any_text(alloc, bytes),
        Err(_) => Err(SchemaError::Memory),
    }
}

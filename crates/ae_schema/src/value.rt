// What is spelled as one value of a text: texts, flags and numbers.
ghost use Rattle.std.specs.Prelude.{◌≡◌, ◌++◌, ◌∷◌, [], Bool, IfOk, IfSome, OnOk, Some};
ghost use Rattle.ae_text.specs.Tree.{Node, word};
ghost use Rattle.ae_text.specs.View.{node};
ghost use Rattle.ae_text.specs.Canonical.{value_text, field_text};
ghost use Rattle.ae_text.specs.Printing.{FitsTypes};
ghost use Rattle.ae_schema.specs.Records.{structure};
ghost use Rattle.ae_schema.specs.Spelled.{flag};
ghost use Rattle.ae_schema.specs.Put.{ArePut, spaced, lines, inside};

use crate::canonical::Cursor;
use ae_base::Text;
use ae_text::{Tree, put_number, put_string};
use std::alloc::{AllocError, Global};

/// A type whose values are read from the trees that spell them.
pub(crate) trait Decode: Drop {
    // The tree of a value.
    ghost spelled: { Self → Node };

    // What the type can hold.
    ghost Fits: { Self → Type 0 };

    /// The value that the tree spells; `None` exactly where it spells none.
    fn of_tree(alloc: Global, tree: &Tree) -> Result<Option<Self>, AllocError>
        ensures some { IfOk result (λ read. IfSome read (λ x. Fits x × (spelled x ≡ node tree.now))) }
        ensures only { (x : Self) → Fits x → spelled x ≡ node tree.now → IfOk result (λ read. read ≡ Some x) };

    /// Passes over what spells a value in canonical form. What it gives is a guess, of which nothing is promised: it is
    /// taken only where a text that comes of it in print is the one that was read.
    fn guess(alloc: Global, text: &mut Cursor) -> Result<Option<Self>, AllocError>;

    ghost some_value: { (x : Self) × Fits x };
}

/// Passes over a value, or these bytes, which stand where there is none.
pub(crate) fn guess_optional<T: Decode>(
    alloc: Global,
    nothing: &[u8],
    text: &mut Cursor,
) -> Result<Option<Option<T>>, AllocError> {
    if text.skip(nothing) {
        return Ok(Some(None));
    }
    match T::guess(alloc, text)? {
        Some(value) => Ok(Some(Some(value))),
        None => Ok(None),
    }
}

/// A type whose values are written too. What is only read, as the history of the first format, isn't one.
pub(crate) trait Encode: Decode {
    /// Puts what spells it after what stands there.
    fn put(&self, out: &mut Vec<u8>) -> Result<(), AllocError>
        ensures text { OnOk result (out.new.items ≡ out.old.items ++ value_text (Self.spelled self.now)) }
        ensures types { OnOk result (FitsTypes (Self.spelled self.now)) }
        ensures fits { OnOk result (Self.Fits self.now) };
}

/// A type whose values are written as structures.
pub(crate) trait Row: Decode {
    /// Puts its fields after what stands there.
    fn put_fields(&self, out: &mut Vec<u8>) -> Result<(), AllocError>
        ensures put { OnOk result (ArePut spaced out.old.items out.new.items (inside (Self.spelled self.now))) }
        ensures fits { OnOk result (Self.Fits self.now) };
}

/// Puts the structure of its fields.
pub(crate) fn put_structure<T: Row>(out: &mut Vec<u8>, row: &T) -> Result<(), AllocError>
    ensures text { OnOk result (out.new.items ≡ out.old.items ++ value_text (structure (inside (T.spelled row.now)))) }
    ensures types { OnOk result (FitsTypes (structure (inside (T.spelled row.now)))) }
    ensures fits { OnOk result (T.Fits row.now) }
{
    out.push(b'{')?;
    row.put_fields(out)?;
    out.extend_from_slice(b" }")?;
    Ok(())
}

// Puts `name = value;`.
fn put_named<T: Encode>(out: &mut Vec<u8>, name: &[u8], value: &T) -> Result<(), AllocError>
    ensures text { OnOk result (out.new.items ≡ out.old.items ++ field_text name.now (value_text (T.spelled value.now))) }
    ensures types { OnOk result (FitsTypes (T.spelled value.now)) }
    ensures fits { OnOk result (T.Fits value.now) }
{
    out.extend_from_slice(name)?;
    out.extend_from_slice(b" = ")?;
    value.put(out)?;
    out.push(b';')?;
    Ok(())
}

/// Puts a field of a structure: a space, then the name and the value.
pub(crate) fn put_field<T: Encode>(
    out: &mut Vec<u8>,
    name: &[u8],
    value: &T,
) -> Result<(), AllocError>
    ensures put { OnOk result (ArePut spaced out.old.items out.new.items ((name.now, T.spelled value.now) ∷ [])) }
    ensures fits { OnOk result (T.Fits value.now) }
{
    out.push(b' ')?;
    put_named(out, name, value)?;
    Ok(())
}

/// Puts two fields of a structure.
pub(crate) fn put_both<T: Encode, U: Encode>(
    out: &mut Vec<u8>,
    first_name: &[u8],
    first: &T,
    second_name: &[u8],
    second: &U,
) -> Result<(), AllocError>
    ensures put { OnOk result (ArePut spaced out.old.items out.new.items
        ((first_name.now, T.spelled first.now) ∷ (second_name.now, U.spelled second.now) ∷ [])) }
    ensures fits { OnOk result (T.Fits first.now) }
    ensures fits_second { OnOk result (U.Fits second.now) }
{
    put_field(out, first_name, first)?;
    put_field(out, second_name, second)?;
    Ok(())
}

/// Puts a line of a file: the name and the value.
pub(crate) fn put_line<T: Encode>(
    out: &mut Vec<u8>,
    name: &[u8],
    value: &T,
) -> Result<(), AllocError>
    ensures put { OnOk result (ArePut lines out.old.items out.new.items ((name.now, T.spelled value.now) ∷ [])) }
    ensures fits { OnOk result (T.Fits value.now) }
{
    put_named(out, name, value)?;
    out.push(b'\n')?;
    Ok(())
}

/// Puts two lines of a file.
pub(crate) fn put_lines<T: Encode, U: Encode>(
    out: &mut Vec<u8>,
    first_name: &[u8],
    first: &T,
    second_name: &[u8],
    second: &U,
) -> Result<(), AllocError>
    ensures put { OnOk result (ArePut lines out.old.items out.new.items
        ((first_name.now, T.spelled first.now) ∷ (second_name.now, U.spelled second.now) ∷ [])) }
    ensures fits { OnOk result (T.Fits first.now) }
    ensures fits_second { OnOk result (U.Fits second.now) }
{
    put_line(out, first_name, first)?;
    put_line(out, second_name, second)?;
    Ok(())
}

impl Decode for Text {
    ghost use Rattle.std.specs.Prelude.{[]};
    ghost use Rattle.ae_text.specs.Tree.{str};

    ghost spelled = { str };

    ghost Fits = { λ x. Unit {0} };

    fn of_tree(alloc: Global, tree: &Tree) -> Result<Option<Text>, AllocError> {
        match tree {
            Tree::Str(text) => Ok(Some(text.copy(alloc)?)),
            _ => Ok(None),
        }
    }

    fn guess(alloc: Global, text: &mut Cursor) -> Result<Option<Text>, AllocError> {
        text.string(alloc)
    }

    ghost some_value = { ([], tt) };
}

impl Encode for Text {
    fn put(&self, out: &mut Vec<u8>) -> Result<(), AllocError> {
        put_string(out, self.bytes())
    }
}

impl Decode for bool {
    ghost use Rattle.std.specs.Prelude.{true};
    ghost use Rattle.ae_schema.specs.Spelled.{flag};

    ghost spelled = { flag };

    ghost Fits = { λ x. Unit {0} };

    fn of_tree(_alloc: Global, tree: &Tree) -> Result<Option<bool>, AllocError> {
        match tree {
            Tree::Word(text) => Ok(flag_of(text.bytes())),
            _ => Ok(None),
        }
    }

    fn guess(_alloc: Global, text: &mut Cursor) -> Result<Option<bool>, AllocError> {
        Ok(flag_of(text.word()))
    }

    ghost some_value = { (true, tt) };
}

impl Encode for bool {
    fn put(&self, out: &mut Vec<u8>) -> Result<(), AllocError> {
        out.extend_from_slice(if *self { b"true" } else { b"false" })
    }
}

// The flag of a word.
fn flag_of(text: &[u8]) -> Option<bool>
    ensures some { IfSome result (λ x. flag x ≡ word text.now) }
    ensures only { (x : Bool) → flag x ≡ word text.now → result ≡ Some x }
{
    if text == b"true".as_slice() {
        Some(true)
    } else if text == b"false".as_slice() {
        Some(false)
    } else {
        None
    }
}

impl Decode for u64 {
    ghost use Rattle.std.specs.Prelude.{◌<◌, ◌^◌};
    ghost use Rattle.ae_text.specs.Tree.{number};
    ghost use Rattle.std.proofs.Common.{rules};

    ghost spelled = { number };

    ghost Fits = { λ n. n < 2 ^ 64 };

    fn of_tree(_alloc: Global, tree: &Tree) -> Result<Option<u64>, AllocError> {
        match tree {
            Tree::Number(n) => Ok(Some(*n)),
            _ => Ok(None),
        }
    }

    fn guess(_alloc: Global, text: &mut Cursor) -> Result<Option<u64>, AllocError> {
        Ok(text.number())
    }

    ghost some_value = { (0, Prim.search rules) };
}

impl Encode for u64 {
    fn put(&self, out: &mut Vec<u8>) -> Result<(), AllocError> {
        put_number(out, *self)
    }
}

impl Decode for u32 {
    ghost use Rattle.std.specs.Prelude.{◌<◌, ◌^◌};
    ghost use Rattle.ae_text.specs.Tree.{number};
    ghost use Rattle.std.proofs.Common.{rules};

    ghost spelled = { number };

    ghost Fits = { λ n. n < 2 ^ 32 };

    fn of_tree(_alloc: Global, tree: &Tree) -> Result<Option<u32>, AllocError> {
        match tree {
            Tree::Number(n) if *n < 4_294_967_296 => Ok(Some(*n as u32)),
            _ => Ok(None),
        }
    }

    fn guess(_alloc: Global, text: &mut Cursor) -> Result<Option<u32>, AllocError> {
        match text.number() {
            Some(n) => Ok(u32::try_from(n).ok()),
            None => Ok(None),
        }
    }

    ghost some_value = { (0, Prim.search rules) };
}

impl Encode for u32 {
    fn put(&self, out: &mut Vec<u8>) -> Result<(), AllocError> {
        put_number(out, u64::from(*self))
    }
}

impl Decode for u16 {
    ghost use Rattle.std.specs.Prelude.{◌<◌, ◌^◌};
    ghost use Rattle.ae_text.specs.Tree.{number};
    ghost use Rattle.std.proofs.Common.{rules};

    ghost spelled = { number };

    ghost Fits = { λ n. n < 2 ^ 16 };

    fn of_tree(_alloc: Global, tree: &Tree) -> Result<Option<u16>, AllocError> {
        match tree {
            Tree::Number(n) if *n < 65_536 => Ok(Some(*n as u16)),
            _ => Ok(None),
        }
    }

    fn guess(_alloc: Global, text: &mut Cursor) -> Result<Option<u16>, AllocError> {
        match text.number() {
            Some(n) => Ok(u16::try_from(n).ok()),
            None => Ok(None),
        }
    }

    ghost some_value = { (0, Prim.search rules) };
}

impl Encode for u16 {
    fn put(&self, out: &mut Vec<u8>) -> Result<(), AllocError> {
        put_number(out, u64::from(*self))
    }
}

// The canonical text of a tree.
ghost use Rattle.std.specs.Prelude.{◌≡◌, ◌<◌, ◌^◌, ◌++◌, ◌∷◌, [], ℕ, List, OnOk, IfOk, IsTrue, flat_map};
ghost use Rattle.std.specs.Fmt.{decimal};
ghost use Rattle.ae_base.specs.Bytes.{AreBytes};
ghost use Rattle.ae_text.specs.View.{node, items_seen, members_seen};
ghost use Rattle.ae_text.specs.Canonical.{piece, quoted, value_text, items_text, field_text, spaced_fields_text, fields_text, text};
ghost use Rattle.ae_text.specs.WellFormed.{IsWellFormed};
ghost use Rattle.ae_text.specs.Grammar.{Reads};
ghost use Rattle.ae_text.specs.Printing.{FitsTypes, ItemsFitTypes, MembersFitTypes};

use crate::tree::{Field, Tree};
use std::alloc::{AllocError, Global};

#[tactic(auto, unfolding(crate::specs::Canonical::piece))]
fn put_piece(out: &mut Vec<u8>, b: u8) -> Result<(), AllocError>
    ensures { OnOk result (out.new.items ≡ out.old.items ++ piece b) }
{
    match b {
        b'\n' => out.extend_from_slice(b"\\n"),
        b'\t' => out.extend_from_slice(b"\\t"),
        b'"' => out.extend_from_slice(b"\\\""),
        b'\\' => out.extend_from_slice(b"\\\\"),
        32..=126 => Ok(out.push(b)?),
        _ => out.extend_from_slice(&[b'\\', b'0' + b / 64, b'0' + b / 8 % 8, b'0' + b % 8]),
    }
}

// Whether the byte stands for itself in a string.
#[tactic(auto, using(crate::proofs::Plain::plain_piece))]
fn is_plain(b: u8) -> bool
    ensures { IsTrue result → piece b ≡ b ∷ [] }
{
    32 <= b && b <= 126 && b != b'"' && b != b'\\'
}

// Whether each byte does.
fn are_plain(s: &[u8]) -> bool
    ensures { IsTrue result → flat_map piece s.now ≡ s.now }
{
    for b in s {
        if !is_plain(*b) {
            return false;
        }
    }
    true
}

// Each byte as it stands in a string.
fn put_pieces(out: &mut Vec<u8>, s: &[u8]) -> Result<(), AllocError>
    ensures { OnOk result (out.new.items ≡ out.old.items ++ flat_map piece s.now) }
{
    for b in s {
        put_piece(out, *b)?;
    }
    Ok(())
}

// What stands between the two `"`: at once where no byte needs an escape.
fn put_inside(out: &mut Vec<u8>, s: &[u8]) -> Result<(), AllocError>
    ensures { OnOk result (out.new.items ≡ out.old.items ++ flat_map piece s.now) }
{
    if are_plain(s) {
        out.extend_from_slice(s)
    } else {
        put_pieces(out, s)
    }
}

// The items of a slice of bytes are bytes.
fn note_bytes(bytes: &[u8])
    ensures { AreBytes bytes.now }
{}

/// Puts the string of these bytes after what stands there.
pub fn put_string(out: &mut Vec<u8>, s: &[u8]) -> Result<(), AllocError>
    // Between two `"`, with escapes.
    ensures text { OnOk result (out.new.items ≡ out.old.items ++ quoted s.now) }
    // They are bytes.
    ensures bytes { AreBytes s.now }
{
    note_bytes(s);
    out.push(b'"')?;
    put_inside(out, s)?;
    out.extend_from_slice(b"\"")
}

/// Puts the number after what stands there.
pub fn put_number(out: &mut Vec<u8>, n: u64) -> Result<(), AllocError>
    // By its decimal digits.
    ensures text { OnOk result (out.new.items ≡ out.old.items ++ decimal n) }
    // It fits 64 bits.
    ensures fits { n < 2 ^ 64 }
{
    let mut buffer = itoa::Buffer::new();
    out.extend_from_slice(buffer.format(n).as_bytes())
}

#[cycle(value)]
fn put_value(out: &mut Vec<u8>, tree: &Tree) -> Result<(), AllocError>
    ensures text { OnOk result (out.new.items ≡ out.old.items ++ value_text (node tree.now)) }
    ensures types { OnOk result (FitsTypes (node tree.now)) }
{
    match tree {
        Tree::Word(text) => out.extend_from_slice(text.bytes()),
        Tree::Number(n) => put_number(out, *n),
        Tree::Str(text) => put_string(out, text.bytes()),
        Tree::List(list) => {
            out.push(b'[')?;
            put_items(out, list.items.as_slice())?;
            out.extend_from_slice(b"]")
        }
        Tree::Fields(fields) => {
            out.push(b'{')?;
            put_spaced_fields(out, fields.items.as_slice())?;
            out.extend_from_slice(b" }")
        }
    }
}

#[cycle(value)]
fn put_items(out: &mut Vec<u8>, trees: &[Tree]) -> Result<(), AllocError>
    ensures text { OnOk result (out.new.items ≡ out.old.items ++ items_text [] (items_seen trees.now)) }
    ensures types { OnOk result (ItemsFitTypes (items_seen trees.now)) }
{
    let mut before: &[u8] = b"";
    for tree in trees {
        out.extend_from_slice(before)?;
        put_value(out, tree)?;
        before = b", ";
    }
    Ok(())
}

#[cycle(value)]
fn put_spaced_fields(out: &mut Vec<u8>, fields: &[Field]) -> Result<(), AllocError>
    ensures text { OnOk result (out.new.items ≡ out.old.items ++ spaced_fields_text (members_seen fields.now)) }
    ensures types { OnOk result (MembersFitTypes (members_seen fields.now)) }
{
    for field in fields {
        out.push(b' ')?;
        put_field(out, field)?;
    }
    Ok(())
}

#[cycle(value)]
fn put_field(out: &mut Vec<u8>, field: &Field) -> Result<(), AllocError>
    ensures text { OnOk result (out.new.items ≡ out.old.items ++ field_text field.now.name (value_text (node field.now.value))) }
    ensures types { OnOk result (FitsTypes (node field.now.value)) }
{
    out.extend_from_slice(field.name.bytes())?;
    out.extend_from_slice(b" = ")?;
    put_value(out, &field.value)?;
    out.extend_from_slice(b";")
}

fn put_fields(out: &mut Vec<u8>, fields: &[Field]) -> Result<(), AllocError>
    ensures text { OnOk result (out.new.items ≡ out.old.items ++ fields_text (members_seen fields.now)) }
    ensures types { OnOk result (MembersFitTypes (members_seen fields.now)) }
{
    for field in fields {
        put_field(out, field)?;
        out.push(b'\n')?;
    }
    Ok(())
}

fn put_text(out: &mut Vec<u8>, tree: &Tree) -> Result<(), AllocError>
    requires { IsWellFormed (node tree.now) }
    ensures text { OnOk result (out.new.items ≡ out.old.items ++ text (node tree.now)) }
    ensures types { OnOk result (FitsTypes (node tree.now)) }
{
    match tree {
        Tree::Fields(fields) => put_fields(out, fields.items.as_slice()),
        _ => Ok(()),
    }
}

/// The canonical text of a tree of fields: each as `name = value;` and a line end.
pub fn print_tree(alloc: Global, tree: &Tree) -> Result<Vec<u8>, AllocError>
    // The words are words, no name of a structure repeats, and nothing nests more than 16 deep.
    requires { IsWellFormed (node tree.now) }
    ensures value { IfOk result (λ printed. printed.items ≡ text (node tree.now)) }
    // What is printed is a text of the same tree.
    ensures again { IfOk result (λ printed. (lines : List ℕ) × Reads printed.items (node tree.now) lines) }
{
    let mut out = Vec::new(alloc);
    put_text(&mut out, tree)?;
    Ok(out)
}

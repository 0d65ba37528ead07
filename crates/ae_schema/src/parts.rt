// What stands in a tree, by its kind.
ghost use Rattle.std.specs.Prelude.{◌≡◌, ℕ, List, map, IfSome, IfNone};
ghost use Rattle.ae_text.specs.Tree.{Node, str, list};
ghost use Rattle.ae_text.specs.View.{node, items_of, fields_seen};
ghost use Rattle.ae_schema.specs.Records.{Named, structure};

use ae_text::{Field, Tree};

/// The bytes of a string.
pub(crate) fn string_in(tree: &Tree) -> Option<&[u8]>
    ensures some { IfSome result (λ bytes. node tree.now ≡ str bytes.now) }
    ensures none { IfNone result ((bytes : List ℕ) → node tree.now ≡ str bytes → ⊥) }
{
    match tree {
        Tree::Str(text) => Some(text.bytes()),
        _ => None,
    }
}

/// The values of a list.
pub(crate) fn list_in(tree: &Tree) -> Option<&[Tree]>
    ensures some { IfSome result (λ trees. node tree.now ≡ list (items_of (map node trees.now))) }
    ensures none { IfNone result ((nodes : List Node) → node tree.now ≡ list (items_of nodes) → ⊥) }
{
    match tree {
        Tree::List(trees) => Some(trees.items()),
        _ => None,
    }
}

/// The fields of a structure.
pub(crate) fn fields_in(tree: &Tree) -> Option<&[Field]>
    ensures some { IfSome result (λ fields. node tree.now ≡ structure (fields_seen fields.now)) }
    ensures none { IfNone result ((ms : List Named) → node tree.now ≡ structure ms → ⊥) }
{
    match tree {
        Tree::Fields(fields) => Some(fields.items()),
        _ => None,
    }
}

// A text as a tree.
ghost use Rattle.std.specs.Prelude.{◌≡◌, IfOk};
ghost use Rattle.ae_text.specs.Tree.{word, str};
ghost use Rattle.ae_text.specs.View.{items, items_seen, members, members_seen, named_node, node};

use ae_base::Text;
use std::alloc::{AllocError, Global};

/// A value, or a whole text, which is its `Fields`. Contracts see it as `node tree`.
#[cycle(tree)]
#[derive(Drop)]
pub enum Tree {
    /// A letter or `_`, then letters, digits and `_`.
    Word(Text),
    Number(u64),
    /// Bytes of any kind.
    Str(Text),
    List(TreeList),
    /// A structure.
    Fields(FieldList),
}

/// A name with its value. Contracts see it as the pair `named_node field`.
#[cycle(tree)]
#[derive(Drop)]
pub struct Field {
    /// A word.
    pub name: Text,
    pub value: Tree,
}

/// The values of a list. Contracts see them as `items list`.
#[cycle(tree)]
#[derive(Drop)]
pub struct TreeList {
    pub(crate) items: Vec<Tree>,
}

/// The fields of a structure or of a text. Contracts see them as `members list`.
#[cycle(tree)]
#[derive(Drop)]
pub struct FieldList {
    pub(crate) items: Vec<Field>,
}

impl Tree {
    /// The word of these bytes.
    pub fn word(alloc: Global, bytes: &[u8]) -> Result<Tree, AllocError>
        ensures { IfOk result (λ tree. node tree ≡ word bytes.now) }
    {
        Ok(Tree::Word(Text::of(Vec::from_slice(alloc, bytes)?)))
    }

    /// The string of these bytes.
    pub fn string(alloc: Global, bytes: &[u8]) -> Result<Tree, AllocError>
        ensures { IfOk result (λ tree. node tree ≡ str bytes.now) }
    {
        Ok(Tree::Str(Text::of(Vec::from_slice(alloc, bytes)?)))
    }
}

impl Field {
    /// The field of this name and value.
    pub fn of(alloc: Global, name: &[u8], value: Tree) -> Result<Field, AllocError>
        ensures { IfOk result (λ field. named_node field ≡ (name.now, node value)) }
    {
        Ok(Field {
            name: Text::of(Vec::from_slice(alloc, name)?),
            value,
        })
    }
}

impl TreeList {
    /// The list of these values.
    pub fn of(trees: Vec<Tree>) -> TreeList
        ensures { items result ≡ items_seen trees.items }
    {
        TreeList { items: trees }
    }

    /// The values of the list, in their order.
    pub fn items(&self) -> &[Tree]
        ensures { items_seen result.now ≡ items self.now }
    {
        self.items.as_slice()
    }
}

impl FieldList {
    /// The list of these fields.
    pub fn of(fields: Vec<Field>) -> FieldList
        ensures { members result ≡ members_seen fields.items }
    {
        FieldList { items: fields }
    }

    /// The fields, in their order.
    pub fn items(&self) -> &[Field]
        ensures { members_seen result.now ≡ members self.now }
    {
        self.items.as_slice()
    }
}

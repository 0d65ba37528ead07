// The fields so far of a structure that is being read.
ghost use Rattle.std.specs.Prelude.{◌≡◌, ◌∷◌, ◌++◌, [], IfOk};
ghost use Rattle.ae_text.specs.View.{fields_seen, members, members_of, node};
ghost use Rattle.ae_text.specs.Pushdown.{has_name};
ghost use Rattle.ae_text.specs.Names.{AreNamesOf};

use crate::tree::{Field, FieldList, Tree};
use ae_base::Text;
use std::alloc::{AllocError, Global};
use std::collections::BTreeSet;

/// Fields of which no two have one name, and their names in order, so that a name is found in
/// logarithmic time.
#[derive(Drop)]
pub(crate) struct OpenFields {
    fields: Vec<Field>,
    names: BTreeSet<Text>,
    ghost names_are: { AreNamesOf names (fields_seen fields.items) },
}

fn put_field(mut fields: Vec<Field>, name: Text, value: Tree) -> Result<Vec<Field>, AllocError>
    ensures { IfOk result (λ made. fields_seen made.items ≡ fields_seen fields.items ++ (name, node value) ∷ []) }
{
    fields.push(Field { name, value })?;
    Ok(fields)
}

impl OpenFields {
    pub(crate) fn new(alloc: Global) -> OpenFields
        ensures { fields_seen result.fields.items ≡ [] }
    {
        OpenFields {
            fields: Vec::new(alloc),
            names: BTreeSet::new(alloc),
        }
    }

    /// Whether a field has this name.
    pub(crate) fn has(&self, name: &Text) -> bool
        ensures { result ≡ has_name name.now (fields_seen self.now.fields.items) }
    {
        self.names.contains(name)
    }

    /// These fields and one more after them.
    pub(crate) fn with(
        self,
        alloc: Global,
        name: Text,
        value: Tree,
    ) -> Result<OpenFields, AllocError>
        ensures { IfOk result (λ made. fields_seen made.fields.items ≡ fields_seen self.fields.items ++ (name, node value) ∷ []) }
    {
        let OpenFields { fields, mut names } = self;
        names.insert(name.copy(alloc)?)?;
        let fields = put_field(fields, name, value)?;
        Ok(OpenFields { fields, names })
    }

    /// The fields of what is read whole.
    pub(crate) fn close(self) -> FieldList
        ensures { members result ≡ members_of (fields_seen self.fields.items) }
    {
        FieldList::of(self.fields)
    }
}

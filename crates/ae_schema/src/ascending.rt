// Lists of rows in the ascending order of their keys.
ghost use Rattle.std.specs.Prelude.{◌≡◌, true, Some, IfSome};
ghost use Rattle.std.specs.Ordering.{is_lt};
ghost use Rattle.std.specs.declared.cmp.Ordering.{Ordering};
ghost use Rattle.ae_types.specs.Ordered.{ascends};

use crate::canonical::Cursor;
use crate::value::Decode;
use ae_text::Tree;
use ae_types::Rows;
use std::alloc::{AllocError, Global};
use std::marker::Model;

/// A row that has a key.
pub(crate) trait Keyed: Decode {
    // What a key is.
    ghost Key: { Type 0 };

    // The key of a row.
    ghost key: { Self → Key };

    // The order of keys.
    ghost order: { Key → Key → Ordering };

    /// Whether its key comes before that of the other.
    fn is_below(&self, other: &Self) -> bool
        ensures { result ≡ is_lt (order (key self.now) (key other.now)) };
}

/// Rows that ascend by their keys. Contracts see the list of them.
#[derive(Drop)]
pub(crate) struct Ascending<T: Keyed> {
    rows: Rows<T>,
}

impl<T: Keyed> Model for Ascending<T> {
    ghost use Rattle.std.specs.Prelude.{◌≡◌, List, true};
    ghost use Rattle.ae_types.specs.Ordered.{ascends};

    ghost Value = { List T };

    ghost view = { λ a. a.rows };

    ghost invariant = { λ a. ascends T.order T.key a.rows ≡ true };
}

// Whether each row's key comes before that of the next.
fn ascend<T: Keyed>(rows: &[T]) -> bool
    ensures { result ≡ ascends T.order T.key rows.now }
{
    rows.is_sorted_by(|a, b| a.is_below(b))
}

// The rows, where they ascend.
fn in_order<T: Keyed>(rows: Rows<T>) -> Option<Ascending<T>>
    ensures some { IfSome result (λ list. (list ≡ rows) × (ascends T.order T.key rows ≡ true)) }
    ensures only { ascends T.order T.key rows ≡ true → result ≡ Some rows }
{
    if ascend(rows.as_slice()) {
        Some(Ascending { rows })
    } else {
        None
    }
}

impl<T: Keyed> Ascending<T> {
    /// The rows, in their order.
    pub(crate) fn into_rows(self) -> Rows<T>
        ensures same { result ≡ self }
        ensures ascend { ascends T.order T.key result ≡ true }
    {
        self.rows
    }
}

impl<T: Keyed> Decode for Ascending<T> {
    ghost use Rattle.std.specs.Prelude.{[], All, refl};
    ghost use Rattle.std.proofs.lemmas.List.Elements.{All-nil};
    ghost use Rattle.ae_schema.specs.Spelled.{list_of};

    ghost spelled = { list_of T.spelled };

    ghost Fits = { λ rows. All T.Fits rows × (ascends T.order T.key rows ≡ true) };

    fn of_tree(alloc: Global, tree: &Tree) -> Result<Option<Ascending<T>>, AllocError> {
        match Rows::<T>::of_tree(alloc, tree)? {
            Some(rows) => Ok(in_order(rows)),
            None => Ok(None),
        }
    }

    fn guess(alloc: Global, text: &mut Cursor) -> Result<Option<Ascending<T>>, AllocError> {
        match Rows::<T>::guess(alloc, text)? {
            Some(rows) => Ok(in_order(rows)),
            None => Ok(None),
        }
    }

    ghost some_value = { ([], (All-nil T.Fits, refl)) };
}

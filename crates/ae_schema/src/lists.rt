// How lists of rows are spelled, and the users of a role.
ghost use Rattle.std.specs.Prelude.{◌≡◌, ◌++◌, ◌∷◌, [], List, IfOk, IfSome, IsSomeAnd, OnOk, All, map};
ghost use Rattle.ae_text.specs.View.{node, items_of};
ghost use Rattle.ae_text.specs.Canonical.{value_text, items_text};
ghost use Rattle.ae_text.specs.Printing.{FitsTypes, ItemsFitTypes};
ghost use Rattle.ae_schema.specs.Spelled.{list_of};
ghost use Rattle.ae_schema.specs.Put.{ArePut, lines};

use crate::canonical::Cursor;
use crate::parts::list_in;
use crate::value::{Decode, Encode};
use ae_base::{User, UserList};
use ae_text::Tree;
use ae_types::{Rows, UserSet};
use std::alloc::{AllocError, Global};

// The rows that the trees spell, one each.
fn read_rows<T: Decode>(alloc: Global, trees: &[Tree]) -> Result<Option<Vec<T>>, AllocError>
    ensures some { IfOk result (λ read. IfSome read (λ rows. All T.Fits rows.items × (map T.spelled rows.items ≡ map node trees.now))) }
    ensures only { (xs : List T) → All T.Fits xs → map T.spelled xs ≡ map node trees.now → IfOk result (λ read. IsSomeAnd read (λ rows. rows.items ≡ xs)) }
{
    let mut rows = Vec::new(alloc);
    for tree in trees {
        match T::of_tree(alloc, tree)? {
            Some(row) => rows.push(row)?,
            None => return Ok(None),
        }
    }
    Ok(Some(rows))
}

/// Passes over a list of rows in canonical form.
pub(crate) fn guess_rows<T: Decode>(
    alloc: Global,
    text: &mut Cursor,
) -> Result<Option<Vec<T>>, AllocError> {
    let mut rows = Vec::new(alloc);
    if text.skip(b"[]") {
        return Ok(Some(rows));
    }
    let mut before: &[u8] = b"[";
    for _ in 0..text.len() {
        if !text.skip(before) {
            return Ok(None);
        }
        match T::guess(alloc, text)? {
            Some(row) => rows.push(row)?,
            None => return Ok(None),
        }
        if text.skip(b"]") {
            return Ok(Some(rows));
        }
        before = b", ";
    }
    Ok(None)
}

// Puts the rows, each but the first after `, `.
fn put_rows<T: Encode>(out: &mut Vec<u8>, rows: &[T]) -> Result<(), AllocError>
    ensures text { OnOk result (out.new.items ≡ out.old.items ++ items_text [] (items_of (map T.spelled rows.now))) }
    ensures types { OnOk result (ItemsFitTypes (items_of (map T.spelled rows.now))) }
    ensures fits { OnOk result (All T.Fits rows.now) }
{
    let mut before: &[u8] = b"";
    for row in rows {
        out.extend_from_slice(before)?;
        row.put(out)?;
        before = b", ";
    }
    Ok(())
}

/// Puts the list of the rows after what stands there.
pub(crate) fn put_list<T: Encode>(out: &mut Vec<u8>, rows: &[T]) -> Result<(), AllocError>
    ensures text { OnOk result (out.new.items ≡ out.old.items ++ value_text (list_of T.spelled rows.now)) }
    ensures types { OnOk result (FitsTypes (list_of T.spelled rows.now)) }
    ensures fits { OnOk result (All T.Fits rows.now) }
{
    out.push(b'[')?;
    put_rows(out, rows)?;
    out.push(b']')?;
    Ok(())
}

/// Puts a line of a file: the name and the list of the rows.
pub(crate) fn put_list_line<T: Encode>(
    out: &mut Vec<u8>,
    name: &[u8],
    rows: &[T],
) -> Result<(), AllocError>
    ensures put { OnOk result (ArePut lines out.old.items out.new.items ((name.now, list_of T.spelled rows.now) ∷ [])) }
    ensures fits { OnOk result (All T.Fits rows.now) }
{
    out.extend_from_slice(name)?;
    out.extend_from_slice(b" = ")?;
    put_list(out, rows)?;
    out.extend_from_slice(b";\n")?;
    Ok(())
}

impl<T: Decode> Decode for Rows<T> {
    ghost use Rattle.std.specs.Prelude.{[], All};
    ghost use Rattle.ae_schema.specs.Spelled.{list_of};
    ghost use Rattle.std.proofs.Common.{rules};

    ghost spelled = { list_of T.spelled };

    ghost Fits = { All T.Fits };

    fn of_tree(alloc: Global, tree: &Tree) -> Result<Option<Rows<T>>, AllocError> {
        let Some(trees) = list_in(tree) else {
            return Ok(None);
        };
        match read_rows::<T>(alloc, trees)? {
            Some(rows) => Ok(Some(Rows::of(rows))),
            None => Ok(None),
        }
    }

    fn guess(alloc: Global, text: &mut Cursor) -> Result<Option<Rows<T>>, AllocError> {
        match guess_rows::<T>(alloc, text)? {
            Some(rows) => Ok(Some(Rows::of(rows))),
            None => Ok(None),
        }
    }

    ghost some_value = { ([], Prim.search rules) };
}

impl<T: Encode> Encode for Rows<T> {
    fn put(&self, out: &mut Vec<u8>) -> Result<(), AllocError> {
        put_list(out, self.as_slice())
    }
}

impl Decode for UserSet {
    ghost use Rattle.ae_text.specs.Tree.{str};
    ghost use Rattle.ae_schema.specs.Spelled.{list_of};
    ghost use Rattle.ae_schema.specs.Fits.{AreUsers};
    ghost use Rattle.ae_schema.specs.SomeValues.{some_users};

    ghost spelled = { list_of str };

    ghost Fits = { AreUsers };

    fn of_tree(alloc: Global, tree: &Tree) -> Result<Option<UserSet>, AllocError> {
        let Some(trees) = list_in(tree) else {
            return Ok(None);
        };
        match read_rows::<User>(alloc, trees)? {
            Some(users) => UserSet::from_users(alloc, UserList::of(users)),
            None => Ok(None),
        }
    }

    fn guess(alloc: Global, text: &mut Cursor) -> Result<Option<UserSet>, AllocError> {
        match guess_rows::<User>(alloc, text)? {
            Some(users) => UserSet::from_users(alloc, UserList::of(users)),
            None => Ok(None),
        }
    }

    ghost some_value = { some_users };
}

impl Encode for UserSet {
    fn put(&self, out: &mut Vec<u8>) -> Result<(), AllocError> {
        put_list(out, self.users())
    }
}

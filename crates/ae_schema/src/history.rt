// How the history of a change is spelled: without reasons in the first format, with them in the second.
ghost use Rattle.std.specs.Prelude.{◌≡◌, List, All, Some, IfOk, IfSome, IsSomeAnd, map};
ghost use Rattle.ae_text.specs.View.{node};
ghost use Rattle.ae_types.specs.declared.change.HistoryRow.{HistoryRow};
ghost use Rattle.ae_schema.specs.Fits.{FitsHistory};
ghost use Rattle.ae_schema.specs.Spelled.{history_row};
ghost use Rattle.ae_schema.specs.Shapes.{history_from};

use crate::Format;
use crate::canonical::Cursor;
use crate::fields::{End, Then};
use crate::format::FormatType;
use crate::lists::guess_rows;
use crate::parts::list_in;
use crate::structure::{guess_structure, read_structure};
use crate::value::{Decode, Encode, Row, put_both, put_structure};
use ae_base::{Text, User, What};
use ae_text::Tree;
use ae_types::{HistoryList, HistoryRow};
use std::alloc::{AllocError, Global};
use std::marker::{Model, PhantomData};

// The names of its fields in the second format.
const HISTORY_NAMES: [&[u8]; 4] = [b"what", b"who", b"when", b"why"];

type HistoryFields = Then<What, Then<User, Then<u64, Then<Text, End>>>>;

fn history_of(fields: HistoryFields) -> HistoryRow
    ensures { result ≡ history_from fields }
{
    let Then { first: what, rest } = fields;
    let Then { first: who, rest } = rest;
    let Then { first: when, rest } = rest;
    let Then {
        first: why,
        rest: End,
    } = rest;
    HistoryRow {
        what,
        who,
        when,
        why,
    }
}

// As rows are written, in the second format.
impl Decode for HistoryRow {
    ghost use Rattle.ae_schema.specs.declared.format.Format.TheVariants.{Two};
    ghost use Rattle.ae_schema.specs.Spelled.{history_row};
    ghost use Rattle.ae_schema.specs.Fits.{FitsHistory};
    ghost use Rattle.ae_schema.specs.SomeValues.{some_history};

    ghost spelled = { history_row Two };

    ghost Fits = { FitsHistory Two };

    fn of_tree(alloc: Global, tree: &Tree) -> Result<Option<HistoryRow>, AllocError> {
        match read_structure::<HistoryFields>(alloc, &HISTORY_NAMES, tree)? {
            Some(fields) => Ok(Some(history_of(fields))),
            None => Ok(None),
        }
    }

    fn guess(alloc: Global, text: &mut Cursor) -> Result<Option<HistoryRow>, AllocError> {
        match guess_structure::<HistoryFields>(alloc, &HISTORY_NAMES, text)? {
            Some(fields) => Ok(Some(history_of(fields))),
            None => Ok(None),
        }
    }

    ghost some_value = { some_history };
}

impl Encode for HistoryRow {
    fn put(&self, out: &mut Vec<u8>) -> Result<(), AllocError> {
        put_structure(out, self)
    }
}

impl Row for HistoryRow {
    fn put_fields(&self, out: &mut Vec<u8>) -> Result<(), AllocError> {
        put_both(out, b"what", &self.what, b"who", &self.who)?;
        put_both(out, b"when", &self.when, b"why", &self.why)?;
        Ok(())
    }
}

type PlainFields = Then<What, Then<User, Then<u64, End>>>;

// The row that the tree spells in the first format; none where it spells none.
fn plain_row(alloc: Global, tree: &Tree) -> Result<Option<HistoryRow>, AllocError>
    ensures some { IfOk result (λ read. IfSome read (λ row. FitsHistory Format.One row × (history_row Format.One row ≡ node tree.now))) }
    ensures only { (row : HistoryRow) → FitsHistory Format.One row → history_row Format.One row ≡ node tree.now → IfOk result (λ read. read ≡ Some row) }
{
    let names: &[&[u8]] = &[b"what", b"who", b"when"];
    match read_structure::<PlainFields>(alloc, names, tree)? {
        Some(fields) => {
            let Then { first: what, rest } = fields;
            let Then { first: who, rest } = rest;
            let Then {
                first: when,
                rest: End,
            } = rest;
            Ok(Some(HistoryRow {
                what,
                who,
                when,
                why: Text::of(Vec::new(alloc)),
            }))
        }
        None => Ok(None),
    }
}

// The row that the tree spells in this format; none where it spells none.
fn row_in(alloc: Global, format: Format, tree: &Tree) -> Result<Option<HistoryRow>, AllocError>
    ensures some { IfOk result (λ read. IfSome read (λ row. FitsHistory format row × (history_row format row ≡ node tree.now))) }
    ensures only { (row : HistoryRow) → FitsHistory format row → history_row format row ≡ node tree.now → IfOk result (λ read. read ≡ Some row) }
{
    match format {
        Format::One => plain_row(alloc, tree),
        Format::Two => HistoryRow::of_tree(alloc, tree),
    }
}

// The rows that the trees spell in this format, one each.
fn rows_in(
    alloc: Global,
    format: Format,
    trees: &[Tree],
) -> Result<Option<Vec<HistoryRow>>, AllocError>
    ensures some { IfOk result (λ read. IfSome read (λ rows. All (FitsHistory format) rows.items
        × (map (history_row format) rows.items ≡ map node trees.now))) }
    ensures only { (xs : List HistoryRow) → All (FitsHistory format) xs → map (history_row format) xs ≡ map node trees.now
        → IfOk result (λ read. IsSomeAnd read (λ rows. rows.items ≡ xs)) }
{
    let mut rows = Vec::new(alloc);
    for tree in trees {
        match row_in(alloc, format, tree)? {
            Some(row) => rows.push(row)?,
            None => return Ok(None),
        }
    }
    Ok(Some(rows))
}

/// A history as a format has it. Contracts see the list of its rows.
#[derive(Drop)]
pub(crate) struct History<F: FormatType> {
    rows: HistoryList,
    of: PhantomData<F>,
}

impl<F: FormatType> Model for History<F> {
    ghost use Rattle.std.specs.Prelude.{List};
    ghost use Rattle.ae_types.specs.declared.change.HistoryRow.{HistoryRow};

    ghost Value = { List HistoryRow };

    ghost view = { λ h. h.rows };
}

impl<F: FormatType> History<F> {
    /// Its rows.
    pub(crate) fn into_rows(self) -> HistoryList
        ensures { result ≡ self }
    {
        self.rows
    }
}

impl<F: FormatType> Decode for History<F> {
    ghost use Rattle.std.specs.Prelude.{[], All};
    ghost use Rattle.std.proofs.lemmas.List.Elements.{All-nil};
    ghost use Rattle.ae_schema.specs.Spelled.{list_of, history_row};
    ghost use Rattle.ae_schema.specs.Fits.{FitsHistory};

    ghost spelled = { list_of (history_row F.format) };

    ghost Fits = { All (FitsHistory F.format) };

    fn of_tree(alloc: Global, tree: &Tree) -> Result<Option<History<F>>, AllocError> {
        let Some(trees) = list_in(tree) else {
            return Ok(None);
        };
        match rows_in(alloc, F::value(), trees)? {
            Some(rows) => Ok(Some(History {
                rows: HistoryList::of(rows),
                of: PhantomData,
            })),
            None => Ok(None),
        }
    }

    // What is printed is of the second format alone.
    fn guess(alloc: Global, text: &mut Cursor) -> Result<Option<History<F>>, AllocError> {
        if let Format::One = F::value() {
            return Ok(None);
        }
        match guess_rows::<HistoryRow>(alloc, text)? {
            Some(rows) => Ok(Some(History {
                rows: HistoryList::of(rows),
                of: PhantomData,
            })),
            None => Ok(None),
        }
    }

    ghost some_value = { ([], All-nil (FitsHistory F.format)) };
}

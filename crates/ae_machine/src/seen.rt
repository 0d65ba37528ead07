// What a command saw of the files, path by path.
ghost use Rattle.std.specs.Prelude.{◌≡◌, ◌≤◌, length, option_copied, take, true};
ghost use Rattle.std.specs.List.{find};
ghost use Rattle.std.specs.Ordering.{is_lt};
ghost use Rattle.std.specs.Str.{bytes_eq};
ghost use Rattle.ae_base.specs.Rows.{text_cmp};
ghost use Rattle.ae_types.specs.Ordered.{ascends};
ghost use Rattle.ae_machine.specs.Fits.{path_of_row};
ghost use Rattle.ae_evidence.specs.Directories.{bytes_of};
ghost use Rattle.ae_machine.specs.Sight.{content_of, read_at};

use crate::View;
use ae_base::{Path, Text};
use ae_outside::Content;
use std::cmp::Ordering;

fn compare(row: &(Path, Content), path: &[u8]) -> Ordering
    ensures { result ≡ text_cmp (path_of_row row.now) path.now }
{
    row.0.bytes().cmp(path)
}

fn is_below(row: &(Path, Content), other: &(Path, Content)) -> bool
    ensures { result ≡ is_lt (text_cmp (path_of_row row.now) (path_of_row other.now)) }
{
    compare(row, other.0.bytes()).is_lt()
}

fn is_at(row: &(Path, Content), path: &[u8]) -> bool
    ensures { result ≡ bytes_eq path.now row.now.0 }
{
    path == row.0.bytes()
}

// Whether each row's path comes before that of the next.
fn ascend(rows: &[(Path, Content)]) -> bool
    ensures { result ≡ ascends text_cmp path_of_row rows.now }
{
    rows.is_sorted_by(|row, other| is_below(row, other))
}

// How many first rows are known to ascend: all but the last, which may have been read apart from the others, or none.
fn sorted_rows(rows: &[(Path, Content)]) -> usize
    ensures within { result ≤ length rows.now }
    ensures ascend { ascends text_cmp path_of_row (take result rows.now) ≡ true }
{
    let most = rows.len().saturating_sub(1);
    if ascend(&rows[..most]) { most } else { 0 }
}

// The row of a path, among rows that ascend.
fn row_in<'a>(rows: &'a [(Path, Content)], path: &[u8]) -> Option<&'a (Path, Content)>
    requires { ascends text_cmp path_of_row rows.now ≡ true }
    ensures { option_copied result ≡ find (λ row. bytes_eq path.now row.0) rows.now }
{
    match rows.binary_search_by(|row| compare(row, path)) {
        Ok(at) => Some(&rows[at]),
        Err(_) => None,
    }
}

// The first row of a path.
fn first_row<'a>(rows: &'a [(Path, Content)], path: &[u8]) -> Option<&'a (Path, Content)>
    ensures { option_copied result ≡ find (λ row. bytes_eq path.now row.0) rows.now }
{
    rows.iter().find(|row| is_at(row, path))
}

// The first row of a path, where so many first rows ascend.
fn row_of<'a>(
    rows: &'a [(Path, Content)],
    sorted: usize,
    path: &[u8],
) -> Option<&'a (Path, Content)>
    requires within { sorted ≤ length rows.now }
    requires ascend { ascends text_cmp path_of_row (take sorted rows.now) ≡ true }
    ensures { option_copied result ≡ find (λ row. bytes_eq path.now row.0) rows.now }
{
    match row_in(&rows[..sorted], path) {
        Some(row) => Some(row),
        None => first_row(&rows[sorted..], path),
    }
}

/// What a command sees, with how many of the first rows that it read ascend by their paths: a path is looked up among these
/// by halves, and only then among the others.
#[derive(Clone, Copy)]
pub(crate) struct Seen<'a> {
    view: &'a View,
    sorted: usize,
    ghost within: { sorted ≤ length view.now.develop },
    ghost ascend: { ascends text_cmp path_of_row (take sorted view.now.develop) ≡ true },
}

impl<'a> Seen<'a> {
    /// What this view shows.
    pub(crate) fn of(view: &'a View) -> Seen<'a>
        ensures { result.view.now ≡ view.now }
    {
        let sorted = sorted_rows(view.develop.as_slice());
        Seen { view, sorted }
    }

    /// What was read at a path: the first row that has it.
    pub(crate) fn row(&self, path: &[u8]) -> Option<&'a (Path, Content)>
        ensures { content_of (option_copied result) ≡ read_at self.now.view.now path.now }
    {
        row_of(self.view.develop.as_slice(), self.sorted, path)
    }

    /// The bytes that were read at a path.
    pub(crate) fn bytes_at(&self, path: &[u8]) -> Option<&'a Text>
        ensures { option_copied result ≡ bytes_of (read_at self.now.view.now path.now) }
    {
        match self.row(path) {
            Some((_, Content::Bytes(bytes))) => Some(bytes),
            _ => None,
        }
    }
}

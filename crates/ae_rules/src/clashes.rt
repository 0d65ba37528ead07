// No path of a tree is a folder on the way to another.
ghost use Rattle.std.specs.Prelude.{◌≡◌, is_some, option_copied, Some};
ghost use Rattle.std.specs.List.{list_all};
ghost use Rattle.std.specs.Option.{option_and_then};
ghost use Rattle.ae_types.specs.Clashes.{has_path, none_clash};
ghost use Rattle.ae_types.specs.Found.{row_path, row_in};
ghost use Rattle.ae_types.specs.Ordered.{Ascends};
ghost use Rattle.ae_types.specs.Trees.{tree_row};
ghost use Rattle.ae_base.specs.Rows.{text_cmp};
ghost use Rattle.ae_rules.specs.Overlay.{paths_over, AreOrdered, is_clear, row_is_clear, file_is_clear};

use ae_types::{Change, FileRow, file_in, row_in};

// The last entry up to the delta doesn't remove the file.
fn stands(deltas: usize, row: &FileRow) -> bool
    ensures { result ≡ is_some (tree_row deltas row.now) }
{
    let mut there = false;
    for entry in row.past.as_slice() {
        if usize::from(entry.delta.number()) <= deltas {
            there = entry.version.is_some();
        }
    }
    there
}

fn is_in_tree(deltas: usize, rows: &[FileRow], path: &[u8]) -> bool
    requires { Ascends text_cmp row_path rows.now }
    ensures { result ≡ is_some (option_and_then (tree_row deltas) (row_in rows.now path.now)) }
{
    match row_in(rows, path) {
        Some(row) => stands(deltas, row),
        None => false,
    }
}

fn is_there(deltas: usize, rows: &[FileRow], change: Option<&Change>, path: &[u8]) -> bool
    requires { AreOrdered rows.now (option_copied change) }
    ensures { result ≡ has_path (paths_over deltas rows.now (option_copied change.entry)) path.now }
{
    match change {
        Some(change) => match file_in(change.files.as_slice(), path) {
            Some(file) => file.frozen.is_some(),
            None => is_in_tree(deltas, rows, path),
        },
        None => is_in_tree(deltas, rows, path),
    }
}

fn is_clear(deltas: usize, rows: &[FileRow], change: Option<&Change>, path: &[u8]) -> bool
    requires { AreOrdered rows.now (option_copied change) }
    ensures { result ≡ is_clear (paths_over deltas rows.now (option_copied change.entry)) path.now }
{
    for at in 0..path.len() {
        if path[at] == b'/' && is_there(deltas, rows, change, &path[..at]) {
            return false;
        }
    }
    true
}

// The row doesn't stand in the tree, or is in the change, or is clear.
fn row_is_clear(deltas: usize, rows: &[FileRow], change: Option<&Change>, row: &FileRow) -> bool
    requires { AreOrdered rows.now (option_copied change) }
    ensures { result ≡ row_is_clear deltas rows.now (option_copied change.entry) row.now }
{
    if !stands(deltas, row) {
        return true;
    }
    if let Some(change) = change {
        if file_in(change.files.as_slice(), row.path.bytes()).is_some() {
            return true;
        }
    }
    is_clear(deltas, rows, change, row.path.bytes())
}

fn rows_are_clear(deltas: usize, rows: &[FileRow], change: Option<&Change>) -> bool
    requires { AreOrdered rows.now (option_copied change) }
    ensures { result ≡ list_all (row_is_clear deltas rows.now (option_copied change.entry)) rows.now }
{
    for row in rows {
        if !row_is_clear(deltas, rows, change, row) {
            return false;
        }
    }
    true
}

fn files_are_clear(deltas: usize, rows: &[FileRow], change: &Change) -> bool
    requires { AreOrdered rows.now (Some change.now) }
    ensures { result ≡ list_all (file_is_clear deltas rows.now change.now) change.now.files }
{
    for file in change.files.as_slice() {
        if file.frozen.is_some() && !is_clear(deltas, rows, Some(change), file.path.bytes()) {
            return false;
        }
    }
    true
}

/// No two paths clash of the tree at the last of so many deltas, or of the candidate of the change.
pub(crate) fn none_clash(deltas: usize, rows: &[FileRow], change: Option<&Change>) -> bool
    requires { AreOrdered rows.now (option_copied change) }
    ensures { result ≡ none_clash (paths_over deltas rows.now (option_copied change.entry)) }
{
    if !rows_are_clear(deltas, rows, change) {
        return false;
    }
    match change {
        Some(change) => files_are_clear(deltas, rows, change),
        None => true,
    }
}

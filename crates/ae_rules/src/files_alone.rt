// The file table by itself.
ghost use Rattle.std.specs.Prelude.{◌≡◌};
ghost use Rattle.std.specs.List.{list_all};
ghost use Rattle.ae_types.specs.Rules.{delta_is_there, length_is_good, row_is_good, files_are_good};

use crate::change_alone::length_is_good;
use crate::clashes::none_clash;
use crate::order::{locks_ascend, past_ascends, rows_ascend};
use ae_types::{FileRow, FileVersion, Lock};

fn delta_is_there(deltas: usize, entry: &FileVersion) -> bool
    ensures { result ≡ delta_is_there deltas entry.now }
{
    let delta = usize::from(entry.delta.number());
    1 <= delta && delta <= deltas
}

fn deltas_are_there(deltas: usize, past: &[FileVersion]) -> bool
    ensures { result ≡ list_all (delta_is_there deltas) past.now }
{
    past.iter().all(|entry| delta_is_there(deltas, entry))
}

fn lengths_are_good(past: &[FileVersion]) -> bool
    ensures { result ≡ list_all (λ (entry : FileVersion). length_is_good entry.version) past.now }
{
    past.iter().all(|entry| length_is_good(entry.version))
}

fn row_is_good(deltas: usize, row: &FileRow) -> bool
    ensures { result ≡ row_is_good deltas row.now }
{
    row.past.len() > 0
        && past_ascends(row.past.as_slice())
        && deltas_are_there(deltas, row.past.as_slice())
        && lengths_are_good(row.past.as_slice())
}

fn rows_are_good(deltas: usize, rows: &[FileRow]) -> bool
    ensures { result ≡ list_all (row_is_good deltas) rows.now }
{
    rows.iter().all(|row| row_is_good(deltas, row))
}

/// Whether the file table of a project with so many deltas, its locks too, keeps the rules by itself.
pub fn files_are_good(deltas: usize, rows: &[FileRow], locks: &[Lock]) -> bool
    ensures { result ≡ files_are_good deltas rows.now locks.now }
{
    if !rows_ascend(rows) {
        return false;
    }
    locks_ascend(locks) && rows_are_good(deltas, rows) && none_clash(deltas, rows, None)
}

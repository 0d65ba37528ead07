// The file table, in the order of its paths, after an event: an integration enters the files of its change.
ghost use Rattle.std.specs.Prelude.{◌≡◌, ◌+◌, ◌<◌, OnOk};
ghost use Rattle.ae_base.specs.Limits.{most_deltas};
ghost use Rattle.ae_base.specs.Rows.{text_cmp};
ghost use Rattle.ae_types.specs.Found.{row_path};
ghost use Rattle.ae_types.specs.Ordered.{Ascends};
ghost use Rattle.ae_log.specs.After.{all_entered, entered, rows_after};

use crate::EventKind;
use crate::files::compare_path;
use ae_base::Delta;
use ae_types::{ChangeFile, FileRow, FileRows, FileVersion, FileVersionList};
use std::alloc::{AllocError, Global};

// Enters what the delta made of a file: at the end of its past, or in a new row.
fn enter_file(
    alloc: Global,
    rows: &mut Vec<FileRow>,
    delta: Delta,
    file: &ChangeFile,
) -> Result<(), AllocError>
    requires { Ascends text_cmp row_path rows.old.items }
    ensures { OnOk result (rows.new.items ≡ entered delta file.now rows.old.items) }
{
    let entry = FileVersion {
        delta,
        usage: file.usage,
        version: file.frozen,
    };
    match rows.binary_search_by(|row| compare_path(&row.path, &file.path)) {
        Ok(at) => rows[at].past.push(entry),
        Err(at) => {
            let path = file.path.copy(alloc)?;
            let mut past = FileVersionList::new(alloc);
            past.push(entry)?;
            rows.insert(at, FileRow { path, past })?;
            Ok(())
        }
    }
}

// Enters what the delta made of each file.
fn enter_files(
    alloc: Global,
    rows: &mut Vec<FileRow>,
    delta: Delta,
    files: &[ChangeFile],
) -> Result<(), AllocError>
    requires { Ascends text_cmp row_path rows.old.items }
    ensures { OnOk result (rows.new.items ≡ all_entered delta files.now rows.old.items) }
{
    for file in files {
        enter_file(alloc, rows, delta, file)?;
    }
    Ok(())
}

/// Makes the file table that after an event of a change that had these files, where there were so many deltas.
pub(crate) fn alter_rows(
    alloc: Global,
    table: &mut FileRows,
    what: &EventKind,
    deltas: usize,
    files: &[ChangeFile],
) -> Result<(), AllocError>
    requires ascend { Ascends text_cmp row_path table.old }
    requires room { what.now ≡ EventKind.IPass → deltas < most_deltas }
    ensures { OnOk result (table.new ≡ rows_after what.now (deltas + 1) files.now table.old) }
{
    if matches!(what, EventKind::IPass) {
        let mut rows = std::mem::replace(table, FileRows::new(alloc)).into_vec();
        enter_files(alloc, &mut rows, Delta::of((deltas + 1) as u16), files)?;
        *table = FileRows::of(rows);
    }
    Ok(())
}

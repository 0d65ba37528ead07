// The rows that are sent of a change.
ghost use Rattle.std.specs.Prelude.{◌≡◌, ◌≤◌, ◌&&◌, nat_eq, nat_le, option_copied, IfOk, length};
ghost use Rattle.std.specs.List.{list_all};
ghost use Rattle.ae_base.specs.Limits.{most_frozen_bytes};
ghost use Rattle.ae_bundle.specs.Bundled.{most_bytes_of};
ghost use Rattle.ae_types.specs.Found.{delta_of};
ghost use Rattle.ae_dist.specs.Sending.{version_at, sent_row, delta_made, sent_rows, size_of, row_fits, sizes_of, can_be_sent};

use ae_base::limits::{
    MOST_ATTRIBUTE_BYTES, MOST_CHANGE_FILES, MOST_FILE_BYTES, MOST_FROZEN_BYTES,
};
use ae_base::{Action, ChangeNo, Delta, Path, Usage};
use ae_types::{Change, ChangeFile, DeltaRow, State, VersionRef, entry_in};
use std::alloc::{AllocError, Global};

/// A file that is sent, with the version whose bytes it has; none where it is removed.
#[derive(Drop)]
pub struct Row {
    pub path: Path,
    pub action: Action,
    pub usage: Usage,
    pub version: Option<VersionRef>,
}

// The version that a delta made of a path.
fn version_at(state: &State, delta: Delta, path: &Path) -> Option<VersionRef>
    ensures { result ≡ version_at state.now delta path.now }
{
    state.note_sound();
    let row = state.row(path)?;
    let entry = entry_in(row.past.as_slice(), delta)?;
    entry.version
}

fn names(delta: &DeltaRow, number: ChangeNo) -> bool
    ensures { result ≡ nat_eq number delta.now.change }
{
    number == delta.change
}

// The delta that names the change.
fn delta_of(deltas: &[DeltaRow], number: ChangeNo) -> Option<&DeltaRow>
    ensures { option_copied result ≡ delta_of deltas.now number }
{
    deltas.iter().find(|delta| names(delta, number))
}

// The delta that the change made.
fn delta_made(state: &State, change: &Change) -> Delta
    ensures { result ≡ delta_made state.now change.now }
{
    match delta_of(state.project().deltas.as_slice(), change.number) {
        Some(row) => row.delta,
        None => Delta::of(0),
    }
}

// The row of a file.
fn row_of(alloc: Global, state: &State, delta: Delta, file: &ChangeFile) -> Result<Row, AllocError>
    ensures { IfOk result (λ row. row ≡ sent_row state.now delta file.now) }
{
    let path = file.path.copy(alloc)?;
    Ok(Row {
        path,
        action: file.action,
        usage: file.usage,
        version: version_at(state, delta, &file.path),
    })
}

/// The rows of a change.
pub(crate) fn sent_rows(
    alloc: Global,
    state: &State,
    change: &Change,
) -> Result<Vec<Row>, AllocError>
    ensures { IfOk result (λ rows. rows.items ≡ sent_rows state.now change.now) }
{
    let delta = delta_made(state, change);
    let mut rows = Vec::new(alloc);
    for file in change.files.as_slice() {
        let row = row_of(alloc, state, delta, file)?;
        rows.push(row)?;
    }
    Ok(rows)
}

// How many bytes the row's version has.
fn size_of(row: &Row) -> u64
    ensures { result ≡ size_of row.now }
{
    match &row.version {
        Some(version) => u64::from(version.length),
        None => 0,
    }
}

// The most bytes of a file: a removed one has none.
fn most_bytes_of(action: Action) -> u64
    ensures { result ≡ most_bytes_of action }
{
    match action {
        Action::Create | Action::Modify => MOST_FILE_BYTES as u64,
        Action::Remove => 0,
    }
}

fn row_fits(row: &Row) -> bool
    ensures { result ≡ row_fits row.now }
{
    (row.usage == Usage::Config) == (row.path.bytes() == b"aegis.conf".as_slice())
        && size_of(row) <= most_bytes_of(row.action)
}

// How many bytes the rows have, as far as each fits; at most so many rows.
fn sizes_fit(rows: &[Row]) -> bool
    requires { length rows.now ≤ 1000 }
    ensures { result ≡ (list_all row_fits rows.now && nat_le (sizes_of rows.now) most_frozen_bytes) }
{
    let mut sum: u64 = 0;
    for row in rows {
        if !row_fits(row) {
            return false;
        }
        sum += size_of(row);
    }
    sum <= MOST_FROZEN_BYTES as u64
}

/// Whether the records alone say that a text of a change set can say the change.
pub(crate) fn can_be_sent(change: &Change, rows: &[Row]) -> bool
    ensures { result ≡ can_be_sent change.now rows.now }
{
    change.attributes.brief.bytes().len() <= MOST_ATTRIBUTE_BYTES
        && change.attributes.description.bytes().len() <= MOST_ATTRIBUTE_BYTES
        && 1 <= rows.len()
        && rows.len() <= MOST_CHANGE_FILES
        && sizes_fit(rows)
}

// The fields of rows.
ghost use Rattle.std.specs.Prelude.{◌≡◌, ◌≤◌, ◌<◌, ◌^◌, IfOk, length, option_copied};
ghost use Rattle.ae_base.specs.Limits.{last_moment};
ghost use Rattle.ae_list.specs.Columns.{or_dash};
ghost use Rattle.ae_types.specs.Trees.{last_up_to, entry_row, tree_row};
ghost use Rattle.ae_report.specs.Rows.{count, lacking, change_field, file_field, delta_field, history_field, evidence_field};

use crate::value::Value;
use ae_base::{ChangeNo, Path, Text, User};
use ae_rlang::RowField;
use ae_types::{Change, DeltaRow, Evidence, FileRow, FileVersion, HistoryRow, VersionRef};
use std::alloc::{AllocError, Global};

fn text(alloc: Global, bytes: &[u8]) -> Result<Value, AllocError>
    ensures { IfOk result (λ value. value ≡ Value.Text bytes.now) }
{
    let copy = Vec::from_slice(alloc, bytes)?;
    Ok(Value::Text(Text::of(copy)))
}

// A user's name, or `-`.
fn user(alloc: Global, user: &Option<User>) -> Result<Value, AllocError>
    ensures { IfOk result (λ value. value ≡ Value.Text (or_dash user.now)) }
{
    match user {
        Some(user) => text(alloc, user.bytes()),
        None => text(alloc, b"-"),
    }
}

// A path, or `-`.
fn path(alloc: Global, path: &Option<Path>) -> Result<Value, AllocError>
    ensures { IfOk result (λ value. value ≡ Value.Text (or_dash path.now)) }
{
    match path {
        Some(path) => text(alloc, path.bytes()),
        None => text(alloc, b"-"),
    }
}

fn number(n: u32) -> Value
    ensures { result ≡ count n }
{
    Value::Number(i64::from(n))
}

// So many; no more than 2^63 - 1 are ever in memory.
fn many(n: usize) -> Result<Value, AllocError>
    ensures { IfOk result (λ value. value ≡ count n) }
{
    if n > i64::MAX as usize {
        return Err(AllocError);
    }
    Ok(Value::Number(n as i64))
}

fn moment(when: u64) -> Value
    requires { when ≤ last_moment }
    ensures { result ≡ count when }
{
    Value::Number(when as i64)
}

fn change_number(change: ChangeNo) -> Value
    ensures { result ≡ count change }
{
    number(u32::from(change.number()))
}

/// A field of a change.
pub(crate) fn change_field(
    alloc: Global,
    change: &Change,
    field: RowField,
) -> Result<Value, AllocError>
    ensures { IfOk result (λ value. value ≡ change_field change.now field) }
{
    match field {
        RowField::Number => Ok(change_number(change.number)),
        RowField::Phase => text(alloc, change.phase.word().as_bytes()),
        RowField::Brief => text(alloc, change.attributes.brief.bytes()),
        RowField::Cause => text(alloc, change.attributes.cause.word().as_bytes()),
        RowField::Developer => user(alloc, &change.developer),
        RowField::Reviewer => user(alloc, &change.reviewer),
        RowField::Integrator => user(alloc, &change.integrator),
        RowField::Files => many(change.files.len()),
        _ => Ok(no_field()),
    }
}

/// A field of a file that stands in the baseline, of its row and the version that stands.
pub(crate) fn file_field(
    alloc: Global,
    row: &FileRow,
    entry: &FileVersion,
    version: VersionRef,
    field: RowField,
) -> Result<Value, AllocError>
    ensures { IfOk result (λ value. value ≡ file_field (length row.now.past) (record { path = row.now.path; usage = entry.now.usage; version = version }) field) }
{
    match field {
        RowField::Path => text(alloc, row.path.bytes()),
        RowField::Usage => text(alloc, entry.usage.word().as_bytes()),
        RowField::Edit => many(row.past.len()),
        RowField::Bytes => Ok(number(version.length)),
        _ => Ok(no_field()),
    }
}

/// A field of a delta.
pub(crate) fn delta_field(
    alloc: Global,
    delta: &DeltaRow,
    field: RowField,
) -> Result<Value, AllocError>
    requires { delta.now.when ≤ last_moment }
    ensures { IfOk result (λ value. value ≡ delta_field delta.now field) }
{
    match field {
        RowField::Delta => Ok(number(u32::from(delta.delta.number()))),
        RowField::Change => Ok(change_number(delta.change)),
        RowField::When => Ok(moment(delta.when)),
        RowField::Who => text(alloc, delta.who.bytes()),
        _ => Ok(no_field()),
    }
}

/// A field of what happened to a change.
pub(crate) fn history_field(
    alloc: Global,
    change: ChangeNo,
    row: &HistoryRow,
    field: RowField,
) -> Result<Value, AllocError>
    requires { row.now.when ≤ last_moment }
    ensures { IfOk result (λ value. value ≡ history_field change row.now field) }
{
    match field {
        RowField::Change => Ok(change_number(change)),
        RowField::What => text(alloc, row.what.word().as_bytes()),
        RowField::Who => text(alloc, row.who.bytes()),
        RowField::When => Ok(moment(row.when)),
        RowField::Why => text(alloc, row.why.bytes()),
        _ => Ok(no_field()),
    }
}

/// A field of a run that was made for a change.
pub(crate) fn evidence_field(
    alloc: Global,
    change: ChangeNo,
    run: &Evidence,
    field: RowField,
) -> Result<Value, AllocError>
    ensures { IfOk result (λ value. value ≡ evidence_field change run.now field) }
{
    match field {
        RowField::Change => Ok(change_number(change)),
        RowField::Ground => text(alloc, run.during.word().as_bytes()),
        RowField::Kind => text(alloc, run.kind.word().as_bytes()),
        RowField::Path => path(alloc, &run.path),
        RowField::Status => Ok(number(u32::from(run.status))),
        RowField::Clean => Ok(Value::Flag(run.clean)),
        _ => Ok(no_field()),
    }
}

/// What stands for a field of no row.
pub(crate) fn no_field() -> Value
    ensures { result ≡ lacking }
{
    number(0)
}

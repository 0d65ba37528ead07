// What the end of a branch brings to the trunk.
ghost use Rattle.std.specs.Prelude.{◌≡◌, ◌≤◌, ◌++◌, ◌∷◌, [], filter, map, option_copied, IfOk, OnOk, length};
ghost use Rattle.std.specs.Result.{IsErrAnd};
ghost use Rattle.std.specs.List.{find};
ghost use Rattle.ae_outside.specs.State.{reads};
ghost use Rattle.ae_types.specs.Phases.{is_completed};
ghost use Rattle.ae_vault.specs.Disk.{DiskFailed, IsCleanDisk, OnlyReads};
ghost use Rattle.ae_exec.specs.Opened.{IsOpenedUnless, MayBeUnopened};
ghost use Rattle.ae_exec.specs.Performs.{LeavesDisk};
ghost use Rattle.ae_branch.specs.Carried.{carried_row, carried_rows, changed_rows, is_changed, is_later, last_usage};
ghost use Rattle.ae_branch.specs.Carrying.{AreReadable};
ghost use Rattle.ae_branch.specs.Finish.{Carries, CarriesAs, CarriesFrom, is_open, refuses_carrying};
ghost use Rattle.ae_branch.specs.Origin.{origin_bytes};
ghost use Rattle.ae_branch.specs.Steps.{AnswersAs};

use crate::origin::read_origin;
use ae_base::limits::MOST_CHANGE_FILES;
use ae_base::{Action, ChangeNo, Delta, Outcome, Phase, Refusal, Usage, Want, Which};
use ae_dist::{Row, open_project};
use ae_files::file_in_tree;
use ae_outside::Disk;
use ae_types::{Change, FileRow, FileVersion, Rows, State, entry_at};
use std::alloc::{AllocError, Global};

/// What a branch brings: the delta of the trunk from which it was begun, and a row for each file that it changed.
#[derive(Drop)]
pub(crate) struct Carried {
    pub(crate) delta: Delta,
    pub(crate) rows: Rows<Row>,
}

// ---- the files that the branch changed

fn is_later(entry: &FileVersion) -> bool
    ensures { result ≡ is_later entry.now }
{
    1 < entry.delta.number()
}

fn is_changed(row: &FileRow) -> bool
    ensures { result ≡ is_changed row.now }
{
    row.past.as_slice().iter().any(|entry| is_later(entry))
}

fn count_changed(rows: &[FileRow]) -> usize
    ensures { result ≡ length (filter is_changed rows.now) }
{
    rows.iter().filter(|row| is_changed(row)).count()
}

// The usage that the last delta gave that changed the file.
fn last_usage(state: &State, row: &FileRow) -> Usage
    ensures { result ≡ last_usage state.now row.now }
{
    match entry_at(row.past.as_slice(), state.project().deltas.len()) {
        Some(entry) => entry.usage,
        None => Usage::Source,
    }
}

// What is brought of a file.
fn carried_row(alloc: Global, state: &State, row: &FileRow) -> Result<Row, AllocError>
    ensures { IfOk result (λ made. made ≡ carried_row state.now row.now) }
{
    let path = row.path.copy(alloc)?;
    match file_in_tree(state, state.project().deltas.len(), &row.path) {
        Some((usage, version)) => Ok(Row {
            path,
            action: Action::Modify,
            usage,
            version: Some(version),
        }),
        None => Ok(Row {
            path,
            action: Action::Remove,
            usage: last_usage(state, row),
            version: None,
        }),
    }
}

fn push_changed(
    alloc: Global,
    rows: &mut Rows<Row>,
    state: &State,
    row: &FileRow,
) -> Result<(), AllocError>
    ensures { OnOk result (rows.new ≡ rows.old ++ map (carried_row state.now) (filter is_changed (row.now ∷ []))) }
{
    if is_changed(row) {
        let made = carried_row(alloc, state, row)?;
        rows.push(made)?;
    }
    Ok(())
}

fn carried_rows(alloc: Global, state: &State) -> Result<Rows<Row>, AllocError>
    ensures { IfOk result (λ rows. rows ≡ carried_rows state.now) }
{
    let mut rows = Rows::new(alloc);
    for row in state.files() {
        push_changed(alloc, &mut rows, state, row)?;
    }
    Ok(rows)
}

// ---- what refuses them

fn is_completed(phase: Phase) -> bool
    ensures { result ≡ is_completed phase }
{
    phase == Phase::Completed
}

// The least change that isn't completed.
fn first_open(changes: &[Change]) -> Option<&Change>
    ensures { option_copied result ≡ find is_open changes.now }
{
    changes.iter().find(|change| !is_completed(change.phase))
}

// Why the branch brings nothing.
fn refuses(state: &State) -> Option<Refusal>
    ensures { result ≡ refuses_carrying state.now }
{
    if let Some(change) = first_open(state.changes()) {
        return Some(Refusal::BranchBusy(change.number));
    }
    let count = count_changed(state.files());
    if count == 0 {
        Some(Refusal::NoFiles)
    } else if count <= MOST_CHANGE_FILES {
        None
    } else {
        Some(Refusal::Limit(Which::ChangeFiles, MOST_CHANGE_FILES as u64))
    }
}

// ---- what is brought

// What the project brings, where it was begun from this delta.
fn carry_from(alloc: Global, state: &State, delta: Delta) -> Result<Carried, Outcome>
    ensures answer { AnswersAs (Unit {0}) (CarriesFrom state.now delta) ⊥ result }
    ensures readable { IfOk result (λ carried. AreReadable carried.rows) }
{
    state.note_sound();
    if let Some(refusal) = refuses(state) {
        return Err(Outcome::Refused(refusal));
    }
    match carried_rows(alloc, state) {
        Ok(rows) => Ok(Carried { delta, rows }),
        Err(_) => Err(Outcome::Memory),
    }
}

// What it brings, where the branch's file names the delta.
fn carry_of<B: Disk>(alloc: Global, disk: &mut B, state: &State) -> Result<Carried, Outcome>
    requires clean { IsCleanDisk B.Disk disk.old }
    ensures answer { AnswersAs B.tells (CarriesAs state.now (origin_bytes (reads (B.state disk.old))))
        (DiskFailed B.Disk disk.old disk.new) result }
    ensures readable { IfOk result (λ carried. AreReadable carried.rows) }
    ensures same { OnlyReads B.Disk disk.old disk.new }
    ensures later { B.faults disk.old ≤ B.faults disk.new }
{
    match read_origin(alloc, disk) {
        Ok(delta) => carry_from(alloc, state, delta),
        Err(why) => Err(why),
    }
}

/// What the branch on this disk brings. Its store is opened as by a command.
pub(crate) fn carry<B: Disk>(alloc: Global, disk: &mut B) -> Result<Carried, Outcome>
    ensures answer { AnswersAs B.tells (Carries (reads (B.state disk.old))) (DiskFailed B.Disk disk.old disk.new) result }
    ensures readable { IfOk result (λ carried. AreReadable carried.rows) }
    ensures disk { B.tells → LeavesDisk (B.state disk.old) (B.state disk.new) (Unit {0}) }
    ensures clean { OnOk result (IsCleanDisk B.Disk disk.new) }
    ensures opened { B.tells → IsOpenedUnless (IsErrAnd result MayBeUnopened) (B.state disk.old) (B.state disk.new) }
    ensures later { B.faults disk.old ≤ B.faults disk.new }
{
    match open_project(alloc, disk, Want::All, None) {
        Ok(state) => {
            let carried = carry_of(alloc, disk, &state);
            drop(state);
            carried
        }
        Err(why) => Err(why),
    }
}

// The trunk, of which a branch is made.
ghost use Rattle.std.specs.Prelude.{◌≡◌, ◌≤◌, ◌++◌, map, IfOk, IfErr, OnOk};
ghost use Rattle.std.specs.Result.{IsErrAnd};
ghost use Rattle.ae_base.specs.declared.outcome.Outcome.TheVariants.{Memory};
ghost use Rattle.ae_exec.specs.Opened.{IsOpenedUnless, MayBeUnopened};
ghost use Rattle.ae_exec.specs.Performs.{LeavesDisk};
ghost use Rattle.ae_outside.specs.State.{reads};
ghost use Rattle.ae_vault.specs.Disk.{DiskFailed, IsCleanDisk};
ghost use Rattle.ae_branch.specs.Begin.{brief_of, created, created_rows, refuses_beginner, refuses_rows, refuses_trunk};
ghost use Rattle.ae_branch.specs.Beginning.{FindsSource, IsGoodSource, IsSource, IsTaken};
ghost use Rattle.ae_branch.specs.Steps.{AnswersAs, Opens};

use crate::opening::opening_acts;
use crate::sizes::sizes_of;
use ae_base::limits::{MOST_CHANGE_FILES, MOST_FROZEN_BYTES};
use ae_base::{Action, Delta, Outcome, ProjectName, Refusal, Role, Text, User, Want, Which};
use ae_dist::{ActList, Row};
use ae_exec::load_project;
use ae_files::tree_at;
use ae_outside::Disk;
use ae_policy::has_role;
use ae_types::{State, TreeRow};
use std::alloc::{AllocError, Global};

/// What a branch is made of: the acts that open it, and the brief description and the files of its first change.
#[derive(Drop)]
pub(crate) struct Source {
    pub(crate) acts: ActList,
    pub(crate) brief: Text,
    pub(crate) rows: Vec<Row>,
}

// ---- who may begin it, and from which delta

fn refuses_beginner(who: &User, delta: Delta, state: &State) -> Option<Refusal>
    ensures { result ≡ refuses_beginner who.now delta state.now }
{
    let project = state.project();
    if !has_role(project, Role::Administrator, who) {
        return Some(Refusal::NotAdministrator);
    }
    if !has_role(project, Role::Developer, who) {
        return Some(Refusal::NotDeveloper);
    }
    if usize::from(delta.number()) <= project.deltas.len() {
        None
    } else {
        Some(Refusal::NoSuchDelta)
    }
}

// The project that was loaded, where a branch may be begun of it.
fn taken(loaded: Option<State>, who: &User, delta: Delta) -> Result<State, Outcome>
    ensures { IsTaken (refuses_trunk who.now delta) loaded result }
{
    let Some(state) = loaded else {
        return Err(Outcome::Refused(Refusal::NoProject));
    };
    if let Some(refusal) = refuses_beginner(who, delta, &state) {
        drop(state);
        return Err(Outcome::Refused(refusal));
    }
    Ok(state)
}

// The project of the trunk, where a branch may be begun of it.
fn open_trunk<D: Disk>(
    alloc: Global,
    trunk: &mut D,
    who: &User,
    delta: Delta,
) -> Result<State, Outcome>
    ensures answer { AnswersAs D.tells (Opens Want.Nothing (refuses_trunk who.now delta) (reads (D.state trunk.old)))
        (DiskFailed D.Disk trunk.old trunk.new) result }
    ensures disk { D.tells → LeavesDisk (D.state trunk.old) (D.state trunk.new) (Unit {0}) }
    ensures opened { D.tells → IsOpenedUnless (IsErrAnd result MayBeUnopened) (D.state trunk.old) (D.state trunk.new) }
    ensures clean { OnOk result (IsCleanDisk D.Disk trunk.new) }
    ensures later { D.faults trunk.old ≤ D.faults trunk.new }
{
    match load_project(alloc, trunk, Want::Nothing) {
        Ok(loaded) => taken(loaded, who, delta),
        Err(why) => Err(why),
    }
}

// ---- its files

// A file of the trunk as one that is created; its path is moved there.
fn created(file: TreeRow) -> Row
    ensures { result ≡ created file }
{
    Row {
        path: file.path,
        action: Action::Create,
        usage: file.usage,
        version: Some(file.version),
    }
}

fn push_created(rows: &mut Vec<Row>, files: Vec<TreeRow>) -> Result<(), AllocError>
    ensures { OnOk result (rows.new.items ≡ rows.old.items ++ map created files.items) }
{
    for file in files {
        rows.push(created(file))?;
    }
    Ok(())
}

// The files at the delta, each of which is created.
fn created_rows(alloc: Global, state: &State, delta: Delta) -> Result<Vec<Row>, AllocError>
    ensures { IfOk result (λ rows. rows.items ≡ created_rows state.now delta) }
{
    let tree = tree_at(alloc, state, delta)?;
    let mut rows = Vec::new(alloc);
    push_created(&mut rows, tree.into_vec())?;
    Ok(rows)
}

/// Why the rows can't be one change.
pub(crate) fn refuses_rows(rows: &[Row]) -> Option<Refusal>
    ensures { result ≡ refuses_rows rows.now }
{
    if rows.is_empty() {
        return Some(Refusal::NoFiles);
    }
    if rows.len() > MOST_CHANGE_FILES {
        return Some(Refusal::Limit(Which::ChangeFiles, MOST_CHANGE_FILES as u64));
    }
    if sizes_of(rows) > MOST_FROZEN_BYTES as u64 {
        return Some(Refusal::Limit(Which::FrozenBytes, MOST_FROZEN_BYTES as u64));
    }
    None
}

// ---- all that a branch is made of

fn brief_of(alloc: Global, name: &ProjectName, delta: Delta) -> Result<Text, AllocError>
    ensures { IfOk result (λ text. text ≡ brief_of name.now delta) }
{
    let text = format!(in alloc; "branch {name} from delta {delta}")?;
    Ok(Text::of(text.into_bytes()))
}

fn source_of(
    alloc: Global,
    state: &State,
    name: &ProjectName,
    delta: Delta,
    who: &User,
) -> Result<Source, AllocError>
    ensures source { IfOk result (IsSource state.now name.now delta who.now) }
    ensures good { IfOk result IsGoodSource }
{
    state.note_sound();
    let acts = opening_acts(alloc, state, who, name)?;
    let brief = brief_of(alloc, name, delta)?;
    let rows = created_rows(alloc, state, delta)?;
    Ok(Source { acts, brief, rows })
}

// The project of the trunk is at its end here.
fn source_from(
    alloc: Global,
    state: State,
    name: &ProjectName,
    delta: Delta,
    who: &User,
) -> Result<Source, Outcome>
    ensures source { IfOk result (IsSource state name.now delta who.now) }
    ensures good { IfOk result IsGoodSource }
    ensures fails { IfErr result (λ why. why ≡ Memory) }
{
    let source = source_of(alloc, &state, name, delta, who);
    drop(state);
    match source {
        Ok(source) => Ok(source),
        Err(_) => Err(Outcome::Memory),
    }
}

/// What the trunk gives a branch of this name that this user begins from this delta. The store is opened as by a command.
pub(crate) fn open_source<D: Disk>(
    alloc: Global,
    trunk: &mut D,
    name: &ProjectName,
    delta: Delta,
    who: &User,
) -> Result<Source, Outcome>
    ensures answer { AnswersAs D.tells (FindsSource (reads (D.state trunk.old)) name.now delta who.now)
        (DiskFailed D.Disk trunk.old trunk.new) result }
    ensures good { IfOk result IsGoodSource }
    ensures disk { D.tells → LeavesDisk (D.state trunk.old) (D.state trunk.new) (Unit {0}) }
    ensures opened { D.tells → IsOpenedUnless (IsErrAnd result MayBeUnopened) (D.state trunk.old) (D.state trunk.new) }
    ensures clean { OnOk result (IsCleanDisk D.Disk trunk.new) }
    ensures later { D.faults trunk.old ≤ D.faults trunk.new }
{
    match open_trunk(alloc, trunk, who, delta) {
        Ok(state) => source_from(alloc, state, name, delta, who),
        Err(why) => Err(why),
    }
}

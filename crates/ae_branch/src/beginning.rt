// A branch is begun.
ghost use Rattle.std.specs.Prelude.{◌≡◌, ◌≤◌, ◌⊎◌, ◌++◌, All, IfOk, IfErr, List, OnOk, Result};
ghost use Rattle.std.specs.Result.{IsErrAnd};
ghost use Rattle.ae_base.specs.declared.outcome.Outcome.{Outcome};
ghost use Rattle.ae_base.specs.declared.outcome.Outcome.TheVariants.{Memory};
ghost use Rattle.ae_dist.specs.Answers.{IsAnswered};
ghost use Rattle.ae_exec.specs.Opened.{HasOpened, IsOpenedUnless, MayBeUnopened};
ghost use Rattle.ae_exec.specs.Performs.{LeavesDisk};
ghost use Rattle.ae_lines.specs.Acts.{MayBePlanned};
ghost use Rattle.ae_lines.specs.declared.act.Act.{Act};
ghost use Rattle.ae_outside.specs.State.{reads};
ghost use Rattle.ae_vault.specs.Disk.{DiskFailed, IsCleanDisk, OnlyReads};
ghost use Rattle.ae_branch.specs.Begin.{Begins, IsVacant, plan_of_first};
ghost use Rattle.ae_branch.specs.Beginning.{BeginsWith, FillsSource, IsGoodSource, IsLeft, ReadsSource};
ghost use Rattle.ae_branch.specs.Steps.{AnswersAs};

use crate::source::{Source, open_source, refuses_rows};
use ae_base::{Cause, Delta, Outcome, ProjectName, Refusal, Text, User, Want};
use ae_bundle::{Bundle, BundleFileList};
use ae_dist::{ActList, first_plan, read_files};
use ae_exec::load_project;
use ae_lines::Act;
use ae_outside::Disk;
use ae_types::State;
use std::alloc::{AllocError, Global};

// ---- the branch

// There is none, where none was loaded.
fn left(loaded: Option<State>) -> Result<(), Outcome>
    ensures { IsLeft loaded result }
{
    match loaded {
        Some(state) => {
            drop(state);
            Err(Outcome::Refused(Refusal::ProjectExists))
        }
        None => Ok(()),
    }
}

// The branch has no project yet. Its store is opened as by a command.
fn check_vacant<B: Disk>(alloc: Global, disk: &mut B) -> Result<(), Outcome>
    ensures answer { AnswersAs B.tells (IsVacant (reads (B.state disk.old)))
        (DiskFailed B.Disk disk.old disk.new) result }
    ensures disk { B.tells → LeavesDisk (B.state disk.old) (B.state disk.new) (Unit {0}) }
    ensures clean { OnOk result (IsCleanDisk B.Disk disk.new) }
    ensures opened { B.tells → IsOpenedUnless (IsErrAnd result MayBeUnopened) (B.state disk.old) (B.state disk.new) }
    ensures later { B.faults disk.old ≤ B.faults disk.new }
{
    match load_project(alloc, disk, Want::Nothing) {
        Ok(loaded) => left(loaded),
        Err(why) => Err(why),
    }
}

// ---- the acts

fn append(acts: &mut ActList, more: Vec<Act>) -> Result<(), AllocError>
    ensures { OnOk result (acts.new ≡ acts.old ++ more.items) }
{
    for act in more {
        acts.push(act)?;
    }
    Ok(())
}

// How the first change is made of these files.
fn plan_first(alloc: Global, brief: Text, files: BundleFileList) -> Result<ActList, AllocError>
    ensures plan { IfOk result (λ acts. acts ≡ plan_of_first brief files) }
    ensures formed { IfOk result (All MayBePlanned) }
{
    first_plan(
        alloc,
        Bundle {
            brief,
            description: Text::of(Vec::new(alloc)),
            cause: Cause::InternalEnhancement,
            files,
        },
    )
}

// The acts that open the branch, and those that make its first change of these files.
fn acts_of(
    alloc: Global,
    first: ActList,
    brief: Text,
    files: BundleFileList,
) -> Result<ActList, AllocError>
    requires formed { All MayBePlanned first }
    ensures acts { IfOk result (λ acts. acts ≡ first ++ plan_of_first brief files) }
    ensures formed { IfOk result (All MayBePlanned) }
{
    let mut acts = first;
    let plan = plan_first(alloc, brief, files)?;
    append(&mut acts, plan.into_vec())?;
    Ok(acts)
}

// The same; memory may run out.
fn joined(alloc: Global, source: Source, files: BundleFileList) -> Result<ActList, Outcome>
    requires good { IsGoodSource source }
    ensures acts { IfOk result (λ acts. acts ≡ source.acts ++ plan_of_first source.brief files) }
    ensures formed { IfOk result (All MayBePlanned) }
    ensures fails { IfErr result (λ why. why ≡ Memory) }
{
    match acts_of(alloc, source.acts, source.brief, files) {
        Ok(acts) => Ok(acts),
        Err(_) => Err(Outcome::Memory),
    }
}

// The versions of the files are read.
fn read_source<D: Disk>(alloc: Global, trunk: &mut D, source: Source) -> Result<ActList, Outcome>
    requires clean { IsCleanDisk D.Disk trunk.old }
    requires good { IsGoodSource source }
    ensures answer { AnswersAs D.tells (ReadsSource (reads (D.state trunk.old)) source)
        (DiskFailed D.Disk trunk.old trunk.new) result }
    ensures formed { IfOk result (All MayBePlanned) }
    ensures same { OnlyReads D.Disk trunk.old trunk.new }
    ensures later { D.faults trunk.old ≤ D.faults trunk.new }
{
    match read_files(alloc, trunk, source.rows.as_slice()) {
        Ok(files) => joined(alloc, source, files),
        Err(why) => {
            drop(source);
            Err(why)
        }
    }
}

// The files may be one change, and their versions are read.
fn fill_source<D: Disk>(alloc: Global, trunk: &mut D, source: Source) -> Result<ActList, Outcome>
    requires clean { IsCleanDisk D.Disk trunk.old }
    requires good { IsGoodSource source }
    ensures answer { AnswersAs D.tells (FillsSource (reads (D.state trunk.old)) source)
        (DiskFailed D.Disk trunk.old trunk.new) result }
    ensures formed { IfOk result (All MayBePlanned) }
    ensures same { OnlyReads D.Disk trunk.old trunk.new }
    ensures later { D.faults trunk.old ≤ D.faults trunk.new }
{
    match refuses_rows(source.rows.as_slice()) {
        Some(refusal) => {
            drop(source);
            Err(Outcome::Refused(refusal))
        }
        None => read_source(alloc, trunk, source),
    }
}

// ---- both stores

// The branch has no project yet, and the acts are made of what the trunk gave.
fn begin_with<D: Disk, B: Disk>(
    alloc: Global,
    source: Source,
    trunk: &mut D,
    disk: &mut B,
) -> Result<ActList, Outcome>
    requires clean { IsCleanDisk D.Disk trunk.old }
    requires good { IsGoodSource source }
    ensures answer { AnswersAs (D.tells × B.tells)
        (BeginsWith (reads (D.state trunk.old)) (reads (B.state disk.old)) source)
        (DiskFailed D.Disk trunk.old trunk.new ⊎ DiskFailed B.Disk disk.old disk.new) result }
    ensures formed { IfOk result (All MayBePlanned) }
    ensures trunk { OnlyReads D.Disk trunk.old trunk.new }
    ensures trunk_later { D.faults trunk.old ≤ D.faults trunk.new }
    ensures disk { B.tells → LeavesDisk (B.state disk.old) (B.state disk.new) (Unit {0}) }
    ensures clean { OnOk result (IsCleanDisk B.Disk disk.new) }
    ensures opened { OnOk result (B.tells → HasOpened (B.state disk.old) (B.state disk.new)) }
    ensures disk_later { B.faults disk.old ≤ B.faults disk.new }
{
    match check_vacant(alloc, disk) {
        Ok(()) => fill_source(alloc, trunk, source),
        Err(why) => {
            drop(source);
            Err(why)
        }
    }
}

/// The acts that make the branch of this name, which this user begins from this delta of the trunk. Both stores are opened as by
/// a command, that of the trunk first.
pub(crate) fn prepare_begin<D: Disk, B: Disk>(
    alloc: Global,
    name: &ProjectName,
    delta: Delta,
    who: &User,
    trunk: &mut D,
    disk: &mut B,
) -> Result<ActList, Outcome>
    // Each answer is what the files of both say;
    ensures answer { AnswersAs (D.tells × B.tells)
        (Begins (reads (D.state trunk.old)) (reads (B.state disk.old)) name.now delta who.now)
        (DiskFailed D.Disk trunk.old trunk.new ⊎ DiskFailed B.Disk disk.old disk.new) result }
    // and what they say comes, unless a disk failed or memory ran out.
    ensures only { D.tells → B.tells → (said : Result (List Act) Outcome) →
        Begins (reads (D.state trunk.old)) (reads (B.state disk.old)) name.now delta who.now said →
        IsAnswered said result }
    // The acts may be done, whatever the disks tell.
    ensures formed { IfOk result (All MayBePlanned) }
    ensures trunk { D.tells → LeavesDisk (D.state trunk.old) (D.state trunk.new) (Unit {0}) }
    ensures trunk_later { D.faults trunk.old ≤ D.faults trunk.new }
    ensures disk { B.tells → LeavesDisk (B.state disk.old) (B.state disk.new) (Unit {0}) }
    ensures clean { OnOk result (IsCleanDisk B.Disk disk.new) }
    // Unless a disk failed, a file is damaged or memory ran out the trunk's store is opened, and before there are acts the branch's is, too.
    ensures trunk_opened { D.tells → IsOpenedUnless (IsErrAnd result MayBeUnopened) (D.state trunk.old) (D.state trunk.new) }
    ensures opened { OnOk result (B.tells → HasOpened (B.state disk.old) (B.state disk.new)) }
    ensures disk_later { B.faults disk.old ≤ B.faults disk.new }
{
    match open_source(alloc, trunk, name, delta, who) {
        Ok(source) => begin_with(alloc, source, trunk, disk),
        Err(why) => Err(why),
    }
}

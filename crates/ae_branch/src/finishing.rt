// The end of a branch: the plan on the trunk of what the branch changed.
ghost use Rattle.std.specs.Prelude.{◌≡◌, ◌≤◌, ◌⊎◌, ◌++◌, All, codes, IfOk, OnOk, List, Result};
ghost use Rattle.std.specs.Result.{IsErrAnd};
ghost use Rattle.ae_base.specs.declared.outcome.Outcome.{Outcome};
ghost use Rattle.ae_outside.specs.State.{reads};
ghost use Rattle.ae_vault.specs.Disk.{DiskFailed, IsCleanDisk, OnlyReads};
ghost use Rattle.ae_exec.specs.Opened.{HasOpened, IsOpenedUnless, MayBeUnopened};
ghost use Rattle.ae_exec.specs.Performs.{LeavesDisk};
ghost use Rattle.ae_lines.specs.Acts.{MayBePlanned};
ghost use Rattle.ae_lines.specs.declared.act.Act.{Act};
ghost use Rattle.ae_dist.specs.Answers.{IsAnswered};
ghost use Rattle.ae_branch.specs.Carrying.{AreReadable};
ghost use Rattle.ae_branch.specs.Finish.{Brings, Finishes, PlansOn, PlansRows, branch_bundle};
ghost use Rattle.ae_branch.specs.Steps.{AnswersAs};

use crate::carrying::{Carried, carry};
use crate::current::take;
use ae_base::{Cause, Outcome, ProjectName, Text};
use ae_bundle::{Bundle, BundleFileList};
use ae_dist::{ActList, Row, plan_on, read_files};
use ae_outside::Disk;
use ae_types::State;
use std::alloc::{AllocError, Global};

// What the change set of a branch is called.
fn brief_of(alloc: Global, name: &ProjectName) -> Result<Text, AllocError>
    ensures { IfOk result (λ text. text ≡ codes "branch " ++ name.now) }
{
    let mut text = Vec::from_slice(alloc, b"branch ")?;
    text.extend_from_slice(name.bytes())?;
    Ok(Text::of(text))
}

// The plan of files that were read.
fn plan_files(
    alloc: Global,
    name: &ProjectName,
    state: &State,
    files: BundleFileList,
) -> Result<ActList, Outcome>
    ensures answer { AnswersAs (Unit {0}) (PlansOn state.now (branch_bundle name.now files)) ⊥ result }
    ensures formed { IfOk result (All MayBePlanned) }
{
    let Ok(brief) = brief_of(alloc, name) else {
        drop(files);
        return Err(Outcome::Memory);
    };
    let bundle = Bundle {
        brief,
        description: Text::of(Vec::new(alloc)),
        cause: Cause::InternalEnhancement,
        files,
    };
    plan_on(alloc, state, bundle)
}

// The plan of the files of rows, which are read in the branch.
fn plan_rows<B: Disk>(
    alloc: Global,
    name: &ProjectName,
    state: &State,
    disk: &mut B,
    rows: &[Row],
) -> Result<ActList, Outcome>
    requires clean { IsCleanDisk B.Disk disk.old }
    requires readable { AreReadable rows.now }
    ensures answer { AnswersAs B.tells (PlansRows name.now state.now (reads (B.state disk.old)) rows.now)
        (DiskFailed B.Disk disk.old disk.new) result }
    ensures formed { IfOk result (All MayBePlanned) }
    ensures same { OnlyReads B.Disk disk.old disk.new }
    ensures later { B.faults disk.old ≤ B.faults disk.new }
{
    match read_files(alloc, disk, rows) {
        Ok(files) => plan_files(alloc, name, state, files),
        Err(why) => Err(why),
    }
}

// The plan of what the branch brings, where the trunk takes it.
fn bring<D: Disk, B: Disk>(
    alloc: Global,
    name: &ProjectName,
    trunk: &mut D,
    disk: &mut B,
    carried: &Carried,
) -> Result<ActList, Outcome>
    requires clean { IsCleanDisk B.Disk disk.old }
    requires readable { AreReadable carried.now.rows }
    ensures answer { AnswersAs (D.tells × B.tells)
        (Brings name.now (reads (D.state trunk.old)) (reads (B.state disk.old)) carried.now)
        (DiskFailed D.Disk trunk.old trunk.new ⊎ DiskFailed B.Disk disk.old disk.new) result }
    ensures formed { IfOk result (All MayBePlanned) }
    ensures trunk { D.tells → LeavesDisk (D.state trunk.old) (D.state trunk.new) (Unit {0}) }
    ensures trunk_opened { OnOk result (D.tells → HasOpened (D.state trunk.old) (D.state trunk.new)) }
    ensures same { OnlyReads B.Disk disk.old disk.new }
    ensures trunk_later { D.faults trunk.old ≤ D.faults trunk.new }
    ensures later { B.faults disk.old ≤ B.faults disk.new }
{
    match take(alloc, trunk, carried) {
        Ok(state) => {
            let acts = plan_rows(alloc, name, &state, disk, carried.rows.as_slice());
            drop(state);
            acts
        }
        Err(why) => Err(why),
    }
}

/// The acts on the trunk that end the branch of this name. Both stores are opened as by a command, the branch's first.
pub(crate) fn prepare_finish<D: Disk, B: Disk>(
    alloc: Global,
    name: &ProjectName,
    trunk: &mut D,
    disk: &mut B,
) -> Result<ActList, Outcome>
    // Each answer is what the files say that the disks read,
    ensures answer { AnswersAs (D.tells × B.tells)
        (Finishes name.now (reads (D.state trunk.old)) (reads (B.state disk.old)))
        (DiskFailed D.Disk trunk.old trunk.new ⊎ DiskFailed B.Disk disk.old disk.new) result }
    // and what they say comes, unless a disk failed or memory ran out.
    ensures only { D.tells → B.tells → (said : Result (List Act) Outcome) →
        Finishes name.now (reads (D.state trunk.old)) (reads (B.state disk.old)) said → IsAnswered said result }
    // Acts that are answered may be done, whatever the disks tell.
    ensures formed { IfOk result (All MayBePlanned) }
    // It leaves both disks as a command does that changes nothing.
    ensures trunk { D.tells → LeavesDisk (D.state trunk.old) (D.state trunk.new) (Unit {0}) }
    ensures disk { B.tells → LeavesDisk (B.state disk.old) (B.state disk.new) (Unit {0}) }
    // Unless a disk failed, a file is damaged or memory ran out the branch's store is opened, and before there are acts the trunk's is, too.
    ensures opened { B.tells → IsOpenedUnless (IsErrAnd result MayBeUnopened) (B.state disk.old) (B.state disk.new) }
    ensures trunk_opened { OnOk result (D.tells → HasOpened (D.state trunk.old) (D.state trunk.new)) }
    ensures trunk_later { D.faults trunk.old ≤ D.faults trunk.new }
    ensures later { B.faults disk.old ≤ B.faults disk.new }
{
    match carry(alloc, disk) {
        Ok(carried) => bring(alloc, name, trunk, disk, &carried),
        Err(why) => Err(why),
    }
}

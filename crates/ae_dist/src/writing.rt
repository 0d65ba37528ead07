// The text of a change.
ghost use Rattle.std.specs.Prelude.{◌≡◌, ◌≤◌, option_copied, IfErr, IfOk};
ghost use Rattle.std.specs.Result.{IsErrAnd};
ghost use Rattle.ae_base.specs.declared.outcome.Outcome.TheVariants.{Memory};
ghost use Rattle.ae_bundle.specs.Bundled.{Bundled, Fits};
ghost use Rattle.ae_outside.specs.State.{reads};
ghost use Rattle.ae_vault.specs.Disk.{DiskFailed};
ghost use Rattle.ae_exec.specs.Opened.{IsOpenedUnless, MayBeUnopened};
ghost use Rattle.ae_exec.specs.Performs.{LeavesDisk};
ghost use Rattle.ae_dist.specs.Answers.{AnswersWriting};

use crate::sending::bundle_of;
use ae_base::{ChangeNo, Outcome, ProjectName, Text};
use ae_bundle::{Bundle, write_bundle};
use ae_outside::Disk;
use std::alloc::Global;

// The text of a change set, which is at its end here.
fn text_of(alloc: Global, bundle: Bundle) -> Result<Text, Outcome>
    requires { Fits bundle }
    ensures text { IfOk result (λ text. Bundled text bundle) }
    ensures fails { IfErr result (λ why. why ≡ Memory) }
{
    let text = write_bundle(alloc, &bundle);
    drop(bundle);
    match text {
        Ok(text) => Ok(Text::of(text)),
        Err(_) => Err(Outcome::Memory),
    }
}

/// The text of the change set that is sent of a completed change. The change set and its text live together.
pub(crate) fn write_change<D: Disk>(
    alloc: Global,
    disk: &mut D,
    project: Option<&ProjectName>,
    change: ChangeNo,
) -> Result<Text, Outcome>
    ensures answer { AnswersWriting D.tells (reads (D.state disk.old)) (option_copied project.entry) change
        (DiskFailed D.Disk disk.old disk.new) result }
    ensures disk { D.tells → LeavesDisk (D.state disk.old) (D.state disk.new) (Unit {0}) }
    ensures opened { D.tells → IsOpenedUnless (IsErrAnd result MayBeUnopened) (D.state disk.old) (D.state disk.new) }
    ensures later { D.faults disk.old ≤ D.faults disk.new }
{
    match bundle_of(alloc, disk, project, change) {
        Ok(bundle) => text_of(alloc, bundle),
        Err(why) => Err(why),
    }
}

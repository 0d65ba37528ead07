// The project that stands is opened.
ghost use Rattle.std.specs.Prelude.{◌≡◌, ◌≤◌, option_copied, OnOk};
ghost use Rattle.std.specs.Result.{IsErrAnd};
ghost use Rattle.ae_outside.specs.State.{reads};
ghost use Rattle.ae_vault.specs.Disk.{DiskFailed, IsCleanDisk};
ghost use Rattle.ae_exec.specs.Opened.{IsOpenedUnless, MayBeUnopened};
ghost use Rattle.ae_exec.specs.Performs.{LeavesDisk};
ghost use Rattle.ae_dist.specs.Sending.{is_other};
ghost use Rattle.ae_dist.specs.Steps.{IsTaken, Opens};

use ae_base::{Outcome, ProjectName, Refusal, Want};
use ae_exec::load_project;
use ae_outside::Disk;
use ae_types::State;
use std::alloc::Global;

// Whether the project that is named, if one is, is another.
fn is_other(name: Option<&ProjectName>, state: &State) -> bool
    ensures { result ≡ is_other (option_copied name.entry) state.now }
{
    match name {
        Some(name) => name.bytes() != state.project().name.bytes(),
        None => false,
    }
}

// The project that was loaded, where there is one that may be named so.
fn taken(loaded: Option<State>, name: Option<&ProjectName>) -> Result<State, Outcome>
    ensures { IsTaken (option_copied name.entry) loaded result }
{
    let Some(state) = loaded else {
        return Err(Outcome::Refused(Refusal::NoProject));
    };
    if is_other(name, &state) {
        drop(state);
        return Err(Outcome::Refused(Refusal::WrongProject));
    }
    Ok(state)
}

/// The project that is there, where it may be named so, with the changes that are wanted; the store is opened as by a command.
pub fn open_project<D: Disk>(
    alloc: Global,
    disk: &mut D,
    want: Want,
    name: Option<&ProjectName>,
) -> Result<State, Outcome>
    ensures answer { Opens D.tells want (reads (D.state disk.old)) (option_copied name.entry)
        (DiskFailed D.Disk disk.old disk.new) result }
    ensures disk { D.tells → LeavesDisk (D.state disk.old) (D.state disk.new) (Unit {0}) }
    // And the store is opened as by a command, unless the disk failed, a file is damaged or memory ran out: the disk holds one log then,
    // in the second format.
    ensures opened { D.tells → IsOpenedUnless (IsErrAnd result MayBeUnopened) (D.state disk.old) (D.state disk.new) }
    ensures clean { OnOk result (IsCleanDisk D.Disk disk.new) }
    ensures later { D.faults disk.old ≤ D.faults disk.new }
{
    match load_project(alloc, disk, want) {
        Ok(loaded) => taken(loaded, name),
        Err(why) => Err(why),
    }
}

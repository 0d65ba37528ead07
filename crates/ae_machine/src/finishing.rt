// Why the development of a change isn't ended, by what asks nothing of the directories.
ghost use Rattle.std.specs.Prelude.{◌≡◌};
ghost use Rattle.ae_policy.specs.Making.{IsPermission};
ghost use Rattle.ae_machine.specs.Call.{first_of};
ghost use Rattle.ae_machine.specs.Freezing.{change_has_files, file_is_current, file_is_free, file_is_new, file_may_end, files_are_ready, files_may_end, versions_have_room};
ghost use Rattle.ae_machine.specs.Refused.{Answers};
ghost use Rattle.ae_machine.specs.Verdict.{asked};

use crate::call::Call;
use crate::clashes::leaves_no_clash;
use crate::paths::is_in_baseline;
use crate::refused::Refused;
use crate::refusing::{caller_develops, caller_is_developer, history_has_room, right_phase};
use ae_base::limits::MOST_VERSIONS;
use ae_base::{Action, Refusal, Which};
use ae_files::{edit, locked};
use ae_types::{Change, ChangeFile};
use ae_words::Function;
use std::alloc::Global;

// ---- the files of the change

// No other change holds the file.
fn file_is_free(
    alloc: Global,
    call: &Call,
    change: &Change,
    file: &ChangeFile,
) -> Result<(), Refused>
    ensures { Answers (file_is_free call.now change.now file.now) result }
{
    match locked(call.state(), &file.path) {
        Some(holder) if change.number != holder => {
            let path = file.path.copy(alloc)?;
            Err(Refused::Because(Refusal::FileLocked(path, holder)))
        }
        _ => Ok(()),
    }
}

// A new file isn't in the baseline.
fn file_is_new(alloc: Global, call: &Call, file: &ChangeFile) -> Result<(), Refused>
    ensures { Answers (file_is_new call.now file.now) result }
{
    if file.action == Action::Create && is_in_baseline(call.state(), &file.path) {
        let path = file.path.copy(alloc)?;
        Err(Refused::Because(Refusal::FileInProject(path)))
    } else {
        Ok(())
    }
}

// The file began from the edit that its path has now.
fn file_is_current(alloc: Global, call: &Call, file: &ChangeFile) -> Result<(), Refused>
    ensures { Answers (file_is_current call.now file.now) result }
{
    let now = edit(call.state(), &file.path);
    if file.origin == now {
        return Ok(());
    }
    let path = file.path.copy(alloc)?;
    Err(Refused::Because(Refusal::OutOfDate(path, file.origin, now)))
}

fn file_may_end(
    alloc: Global,
    call: &Call,
    change: &Change,
    file: &ChangeFile,
) -> Result<(), Refused>
    ensures { Answers (file_may_end call.now change.now file.now) result }
{
    file_is_free(alloc, call, change, file)?;
    file_is_new(alloc, call, file)?;
    file_is_current(alloc, call, file)
}

fn files_are_ready(alloc: Global, call: &Call, change: &Change) -> Result<(), Refused>
    ensures { Answers (files_are_ready call.now change.now) result }
{
    for file in change.files.as_slice() {
        file_may_end(alloc, call, change, file)?;
    }
    Ok(())
}

fn files_may_end(alloc: Global, call: &Call) -> Result<(), Refused>
    ensures { Answers (files_may_end call.now) result }
{
    match call.change() {
        Some(change) => files_are_ready(alloc, call, change),
        None => Ok(()),
    }
}

fn change_has_files(call: &Call) -> Result<(), Refusal>
    ensures { IsPermission (change_has_files call.now) result }
{
    match call.change() {
        Some(change) if change.files.len() == 0 => Err(Refusal::NoFiles),
        _ => Ok(()),
    }
}

// ---- room

// The numbers of versions aren't used up.
fn versions_have_room(call: &Call) -> Result<(), Refusal>
    ensures { IsPermission (versions_have_room call.now) result }
{
    if call.state().project().next_version < MOST_VERSIONS {
        Ok(())
    } else {
        Err(Refusal::Limit(Which::Versions, Which::Versions.most()))
    }
}

// ---- the function

pub(crate) fn develop_end(alloc: Global, call: &Call) -> Result<(), Refused>
    requires end { call.now.command.function ≡ Function.DevelopEnd }
    ensures { Answers (first_of (asked Function.DevelopEnd) call.now) result }
{
    right_phase(call)?;
    caller_is_developer(call)?;
    caller_develops(alloc, call)?;
    change_has_files(call)?;
    files_may_end(alloc, call)?;
    leaves_no_clash(alloc, call)?;
    history_has_room(call)?;
    versions_have_room(call)?;
    Ok(())
}

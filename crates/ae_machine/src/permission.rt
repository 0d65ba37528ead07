// Who may give a command, and on what.
ghost use Rattle.std.specs.Prelude.{◌≡◌, false};
ghost use Rattle.ae_policy.specs.Answers.{IsAnswer};
ghost use Rattle.ae_types.specs.Roles.{users_of};
ghost use Rattle.ae_machine.specs.Permission.{may_come_in, all_added, all_dropped, may_be_added, may_be_dropped};
ghost use Rattle.ae_machine.specs.Refused.{Answers};

use crate::call::Call;
use crate::refused::Refused;
use ae_base::{Phase, Role, User};
use ae_policy::{PolicyError, add_user, drop_user};
use ae_types::{Project, TryCopy};
use ae_words::Function;
use std::alloc::Global;

/// Whether the function may come in this phase of its change; of no change it never may.
pub(crate) fn may_come_in(function: Function, phase: Phase) -> bool
    ensures { result ≡ may_come_in function phase }
{
    match function {
        Function::NewChangeUndo | Function::DevelopBegin => phase == Phase::AwaitingDevelopment,
        Function::ChangeAttributes => phase != Phase::Completed,
        Function::DevelopBeginUndo
        | Function::CopyFile
        | Function::CopyFileUndo
        | Function::NewFile
        | Function::NewFileUndo
        | Function::NewTest
        | Function::NewTestUndo
        | Function::RemoveFile
        | Function::RemoveFileUndo
        | Function::DevelopEnd => phase == Phase::BeingDeveloped,
        Function::Build | Function::Test => {
            matches!(phase, Phase::BeingDeveloped | Phase::BeingIntegrated)
        }
        Function::DevelopEndUndo => matches!(
            phase,
            Phase::AwaitingReview | Phase::BeingReviewed | Phase::AwaitingIntegration
        ),
        Function::ReviewBegin => phase == Phase::AwaitingReview,
        Function::ReviewBeginUndo | Function::ReviewPass | Function::ReviewFail => {
            phase == Phase::BeingReviewed
        }
        Function::ReviewPassUndo | Function::IntegrateBegin => phase == Phase::AwaitingIntegration,
        Function::IntegrateBeginUndo | Function::IntegratePass | Function::IntegrateFail => {
            phase == Phase::BeingIntegrated
        }
        _ => false,
    }
}

// Adds the users to the role, one after another, up to the first who is refused.
fn add_users(
    alloc: Global,
    project: &mut Project,
    role: Role,
    users: &[User],
) -> Result<(), PolicyError>
    ensures { IsAnswer (all_added users.now (users_of role project.old)) result }
{
    for user in users {
        add_user(project, role, user.copy(alloc)?)?;
    }
    Ok(())
}

// Drops the users from the role, one after another, up to the first who is refused.
fn drop_users(
    alloc: Global,
    project: &mut Project,
    role: Role,
    users: &[User],
) -> Result<(), PolicyError>
    ensures { IsAnswer (all_dropped role users.now (users_of role project.old)) result }
{
    for user in users {
        drop_user(alloc, project, role, user)?;
    }
    Ok(())
}

/// All of the users may be added to the role, each as if those before him were.
pub(crate) fn may_be_added(alloc: Global, call: &Call, role: Role) -> Result<(), Refused>
    ensures { Answers (may_be_added role call.now) result }
{
    let mut after = call.state().project().copy(alloc)?;
    let added = add_users(alloc, &mut after, role, call.command().users.as_slice());
    drop(after);
    added?;
    Ok(())
}

/// All of the users may be dropped from the role, each as if those before him were.
pub(crate) fn may_be_dropped(alloc: Global, call: &Call, role: Role) -> Result<(), Refused>
    ensures { Answers (may_be_dropped role call.now) result }
{
    let mut after = call.state().project().copy(alloc)?;
    let dropped = drop_users(alloc, &mut after, role, call.command().users.as_slice());
    drop(after);
    dropped?;
    Ok(())
}

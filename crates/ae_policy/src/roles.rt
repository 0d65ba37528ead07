// The users of the roles.
ghost use Rattle.std.specs.Prelude.{◌≡◌, OnOk, OnErr};
ghost use Rattle.ae_types.specs.Roles.{users_of, has_user, refuses_adding, refuses_dropping};
ghost use Rattle.ae_policy.specs.Changed.{after_adding, after_dropping};
ghost use Rattle.ae_policy.specs.Answers.{IsAnswer};

use crate::PolicyError;
use ae_base::limits::MOST_ROLE_USERS;
use ae_base::{Refusal, Role, User, Which};
use ae_types::{Project, UserSet};
use std::alloc::Global;

// The users of the role.
fn users_in(project: &Project, role: Role) -> &UserSet
    ensures { result.now ≡ users_of role project.now }
{
    match role {
        Role::Administrator => &project.administrators,
        Role::Developer => &project.developers,
        Role::Reviewer => &project.reviewers,
        Role::Integrator => &project.integrators,
    }
}

/// Whether the user has the role.
pub fn has_role(project: &Project, role: Role, user: &User) -> bool
    ensures { result ≡ has_user (users_of role project.now) user.now }
{
    users_in(project, role).contains(user)
}

/// Gives the user the role: he is the last of its users. Who has it already is refused before a role that is full.
pub fn add_user(project: &mut Project, role: Role, user: User) -> Result<(), PolicyError>
    ensures answer { IsAnswer (refuses_adding (users_of role project.old) user) result }
    ensures ok { OnOk result (project.new ≡ after_adding role user project.old) }
    ensures err { OnErr result (project.new ≡ project.old) }
{
    if has_role(project, role, &user) {
        return Err(PolicyError::Refused(Refusal::UserThere(user)));
    }
    if users_in(project, role).len() >= MOST_ROLE_USERS {
        return Err(PolicyError::Refused(Refusal::Limit(Which::RoleUsers, MOST_ROLE_USERS as u64)));
    }
    match role {
        Role::Administrator => project.administrators.insert(user)?,
        Role::Developer => project.developers.insert(user)?,
        Role::Reviewer => project.reviewers.insert(user)?,
        Role::Integrator => project.integrators.insert(user)?,
    }
    Ok(())
}

/// Takes the role from the user: the others keep it, and their order. The last administrator stays.
pub fn drop_user(
    alloc: Global,
    project: &mut Project,
    role: Role,
    user: &User,
) -> Result<(), PolicyError>
    ensures answer { IsAnswer (refuses_dropping role (users_of role project.old) user.now) result }
    ensures ok { OnOk result (project.new ≡ after_dropping role user.now project.old) }
    ensures err { OnErr result (project.new ≡ project.old) }
{
    if !has_role(project, role, user) {
        return Err(PolicyError::Refused(Refusal::UserNotThere(user.copy(alloc)?)));
    }
    if role == Role::Administrator && project.administrators.len() <= 1 {
        return Err(PolicyError::Refused(Refusal::LastAdministrator));
    }
    match role {
        Role::Administrator => project.administrators.remove(user),
        Role::Developer => project.developers.remove(user),
        Role::Reviewer => project.reviewers.remove(user),
        Role::Integrator => project.integrators.remove(user),
    }
    Ok(())
}

// The users of a role, with one more or one less.
ghost use Rattle.std.specs.Prelude.{◌≡◌, ◌++◌, ◌∷◌, [], Contains, OnOk};
ghost use Rattle.ae_types.specs.Users.{without};
ghost use Rattle.ae_types.specs.Roles.{users_of, with_users};

use ae_base::{Role, User};
use ae_types::Project;
use std::alloc::AllocError;

/// Adds a user that the role doesn't have, at the end.
pub(crate) fn add_user(project: &mut Project, role: Role, user: User) -> Result<(), AllocError>
    requires { Contains (users_of role project.old) user → ⊥ }
    ensures { OnOk result (project.new ≡ with_users role (users_of role project.old ++ user ∷ []) project.old) }
{
    match role {
        Role::Administrator => project.administrators.insert(user),
        Role::Developer => project.developers.insert(user),
        Role::Reviewer => project.reviewers.insert(user),
        Role::Integrator => project.integrators.insert(user),
    }
}

/// Drops a user. The others keep their order.
pub(crate) fn drop_user(project: &mut Project, role: Role, user: &User)
    ensures { project.new ≡ with_users role (without user.now (users_of role project.old)) project.old }
{
    match role {
        Role::Administrator => project.administrators.remove(user),
        Role::Developer => project.developers.remove(user),
        Role::Reviewer => project.reviewers.remove(user),
        Role::Integrator => project.integrators.remove(user),
    }
}

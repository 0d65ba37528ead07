// Who may make changes.
ghost use Rattle.ae_policy.specs.Making.{refuses_making, IsPermission};

use crate::has_role;
use ae_base::{Refusal, Role, User};
use ae_types::Project;

/// Whether the user may make and remove changes: an administrator may, and where developers may create changes a developer.
pub fn may_create(project: &Project, user: &User) -> Result<(), Refusal>
    ensures { IsPermission (refuses_making project.now user.now) result }
{
    if has_role(project, Role::Administrator, user) {
        return Ok(());
    }
    if !project.attributes.developers_may_create_changes {
        return Err(Refusal::NotAdministrator);
    }
    if has_role(project, Role::Developer, user) {
        Ok(())
    } else {
        Err(Refusal::NotDeveloper)
    }
}

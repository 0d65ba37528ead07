// The project by itself.
ghost use Rattle.std.specs.Prelude.{◌≡◌};
ghost use Rattle.ae_types.specs.Rules.{is_moment, role_is_good, roles_are_good, deltas_are_numbered, deltas_have_moments, next_version_is_good, project_is_good};

use crate::order::numbers_ascend;
use ae_base::ChangeNo;
use ae_base::limits::{LAST_MOMENT, MOST_NEXT_VERSION, MOST_ROLE_USERS};
use ae_types::{DeltaRow, Project, UserSet};

// The users differ, since they are a set.
fn role_is_good(users: &UserSet) -> bool
    ensures { result ≡ role_is_good users.now }
{
    users.users().len() <= MOST_ROLE_USERS
}

fn roles_are_good(project: &Project) -> bool
    ensures { result ≡ roles_are_good project.now }
{
    role_is_good(&project.administrators)
        && role_is_good(&project.developers)
        && role_is_good(&project.reviewers)
        && role_is_good(&project.integrators)
}

pub(crate) fn is_moment(when: u64) -> bool
    ensures { result ≡ is_moment when }
{
    when <= LAST_MOMENT
}

fn deltas_are_numbered(deltas: &[DeltaRow]) -> bool
    ensures { result ≡ deltas_are_numbered deltas.now }
{
    let mut next = 1;
    for row in deltas {
        if row.delta.number() != next {
            return false;
        }
        next += 1;
    }
    true
}

fn deltas_have_moments(deltas: &[DeltaRow]) -> bool
    ensures { result ≡ deltas_have_moments deltas.now }
{
    deltas.iter().all(|delta| is_moment(delta.when))
}

fn next_version_is_good(next: u64) -> bool
    ensures { result ≡ next_version_is_good next }
{
    1 <= next && next <= MOST_NEXT_VERSION
}

/// Whether the project and the numbers of its changes, by themselves, keep the rules.
pub fn project_is_good(project: &Project, numbers: &[ChangeNo]) -> bool
    ensures { result ≡ project_is_good project.now numbers.now }
{
    roles_are_good(project)
        && project.administrators.len() > 0
        && numbers_ascend(numbers)
        && deltas_are_numbered(project.deltas.as_slice())
        && deltas_have_moments(project.deltas.as_slice())
        && next_version_is_good(project.next_version)
}

// The record of the project after an event.
ghost use Rattle.std.specs.Prelude.{◌≡◌, ◌≤◌, ◌<◌, length, OnOk};
ghost use Rattle.ae_base.specs.Limits.{most_deltas, most_next_version};
ghost use Rattle.ae_types.specs.Users.{AllDiffer};
ghost use Rattle.ae_types.specs.Roles.{users_of};
ghost use Rattle.ae_types.specs.Frozen.{present};
ghost use Rattle.ae_log.specs.After.{project_after};
ghost use Rattle.ae_log.specs.Baseline.{deltas_after};

use crate::roles::{add_user, drop_user};
use crate::{Event, EventKind};
use ae_base::{Delta, Path, Text};
use ae_types::{DeltaList, DeltaRow, Project, TryCopy};
use std::alloc::{AllocError, Global};

// How many files the tree doesn't remove.
fn present_count(tree: &[(Path, Option<Text>)]) -> usize
    ensures { result ≡ length (present tree.now) }
{
    let mut count = 0;
    for row in tree {
        count += usize::from(row.1.is_some());
    }
    count
}

// Adds the delta that the event, an IPass, makes.
fn add_delta(alloc: Global, deltas: &mut DeltaList, event: &Event) -> Result<(), AllocError>
    requires { length deltas.old < most_deltas }
    ensures { OnOk result (deltas.new ≡ deltas_after event.now deltas.old event.now.change EventKind.IPass) }
{
    let Some(change) = event.change else {
        return Ok(());
    };
    deltas.push(DeltaRow {
        delta: Delta::of((deltas.len() + 1) as u16),
        change,
        when: event.when,
        who: event.who.copy(alloc)?,
    })
}

/// Makes the record of the project that after an event.
pub(crate) fn alter_project(
    alloc: Global,
    project: &mut Project,
    event: &Event,
) -> Result<(), AllocError>
    requires differ { (role : _) → AllDiffer (users_of role (project_after event.now event.now.what project.old)) }
    requires versions { (project_after event.now event.now.what project.old).next_version ≤ most_next_version }
    requires room { event.now.what ≡ EventKind.IPass → length project.old.deltas < most_deltas }
    ensures { OnOk result (project.new ≡ project_after event.now event.now.what project.old) }
{
    match &event.what {
        EventKind::Attributes(attributes) => project.attributes = attributes.copy(alloc)?,
        EventKind::RoleAdd(role, user) => add_user(project, *role, user.copy(alloc)?)?,
        EventKind::RoleDrop(role, user) => drop_user(project, *role, user),
        EventKind::End(tree, _, _) => {
            project.next_version += present_count(tree.as_slice()) as u64;
        }
        EventKind::IPass => add_delta(alloc, &mut project.deltas, event)?,
        _ => {}
    }
    Ok(())
}

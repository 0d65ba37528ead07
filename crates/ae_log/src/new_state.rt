// The state of a new project.
ghost use Rattle.std.specs.Prelude.{◌≡◌, ◌∷◌, [], Some, IfOk};
ghost use Rattle.ae_log.specs.After.{new_project, started};
ghost use Rattle.ae_log.specs.Applies.{IsProject};

use crate::{Event, EventKind};
use ae_base::{ProjectName, User};
use ae_types::{
    Attributes, ChangeList, DeltaList, FileRows, LockList, NumberList, Parts, Project, State,
    TryCopy, UserSet,
};
use std::alloc::{AllocError, Global};

// The set of this user alone.
fn only_user(alloc: Global, user: &User) -> Result<UserSet, AllocError>
    ensures { IfOk result (λ set. set ≡ user.now ∷ []) }
{
    let user = user.copy(alloc)?;
    let mut set = UserSet::new(alloc);
    set.insert(user)?;
    Ok(set)
}

// A project with one administrator and no deltas.
fn made_project(
    alloc: Global,
    who: &User,
    name: &ProjectName,
    attributes: &Attributes,
) -> Result<Project, AllocError>
    ensures { IfOk result (λ project. project ≡ new_project who.now name.now attributes.now) }
{
    Ok(Project {
        name: name.copy(alloc)?,
        attributes: attributes.copy(alloc)?,
        administrators: only_user(alloc, who)?,
        developers: UserSet::new(alloc),
        reviewers: UserSet::new(alloc),
        integrators: UserSet::new(alloc),
        next_version: 1,
        deltas: DeltaList::new(alloc),
    })
}

/// The state of the project that the event makes.
pub fn start(alloc: Global, event: &Event) -> Result<State, AllocError>
    requires { IsProject event.now.what }
    ensures { IfOk result (λ state. started event.now ≡ Some state) }
{
    let EventKind::Project(name, attributes) = &event.what else {
        unreachable!()
    };
    Ok(State::of(Parts {
        project: made_project(alloc, &event.who, name, attributes)?,
        numbers: NumberList::new(alloc),
        files: FileRows::new(alloc),
        locks: LockList::new(alloc),
        changes: ChangeList::new(alloc),
    }))
}

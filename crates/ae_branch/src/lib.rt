//! Branches: a project within a project, begun from a delta of the trunk and brought back as a change of it.
#![tactic(auto)]

mod beginning;
mod calling;
mod carrying;
mod current;
mod finishing;
mod opening;
mod origin;
mod putting;
mod sizes;
mod source;

pub use calling::branch;

// Which state file is blamed first.
ghost use Rattle.std.specs.Prelude.{◌≡◌, ◌&&◌, None, Some, IfOk, OnOk, IfErr, length};
ghost use Rattle.std.specs.Ordering.{nat_cmp};
ghost use Rattle.std.specs.Option.{option_map};
ghost use Rattle.ae_types.specs.Ordered.{ascends, Ascends, itself};
ghost use Rattle.ae_types.specs.Found.{number_of_change};
ghost use Rattle.ae_types.specs.Rules.{is_change_of, bad_change, project_is_good, files_are_good, project_fits_changes, files_fit_changes, blamed};
ghost use Rattle.ae_rules.specs.Blamed.{change_blame, blamed_beside, Names, IsReadable};

use crate::candidate::candidates_fit;
use crate::change_alone::change_is_good;
use crate::deltas::deltas_fit;
use crate::entries::entries_fit;
use crate::error::CheckError;
use crate::files_alone::files_are_good;
use crate::integration::integration_fits;
use crate::locks::locks_fit;
use crate::order::changes_ascend;
use crate::project_alone::project_is_good;
use crate::versions::versions_fit;
use ae_base::ChangeNo;
use ae_types::{Blame, Change, Parts, State, has_number};
use std::alloc::{AllocError, Global};

fn is_change_of(numbers: &[ChangeNo], change: &Change) -> bool
    requires { Ascends nat_cmp itself numbers.now }
    ensures { result ≡ is_change_of numbers.now change.now }
{
    has_number(numbers, change.number) && change_is_good(change)
}

fn bad_change(numbers: &[ChangeNo], changes: &[Change]) -> Option<ChangeNo>
    requires { Ascends nat_cmp itself numbers.now }
    ensures { option_map change_blame result ≡ bad_change numbers.now changes.now }
{
    for change in changes {
        if !is_change_of(numbers, change) {
            return Some(change.number);
        }
    }
    None
}

fn project_stands(parts: &Parts) -> bool
    ensures { result ≡ (project_is_good parts.now.project parts.now.numbers && ascends nat_cmp number_of_change parts.now.changes) }
{
    project_is_good(&parts.project, parts.numbers.as_slice())
        && changes_ascend(parts.changes.as_slice())
}

fn files_stand(parts: &Parts) -> bool
    ensures { result ≡ files_are_good (length parts.now.project.deltas) parts.now.files parts.now.locks }
{
    files_are_good(
        parts.project.deltas.len(),
        parts.files.as_slice(),
        parts.locks.as_slice(),
    )
}

fn bad_change_of(parts: &Parts) -> Option<ChangeNo>
    requires { Ascends nat_cmp itself parts.now.numbers }
    ensures { option_map change_blame result ≡ bad_change parts.now.numbers parts.now.changes }
{
    bad_change(parts.numbers.as_slice(), parts.changes.as_slice())
}

fn project_fits_changes(alloc: Global, parts: &Parts) -> Result<bool, AllocError>
    requires { IsReadable parts.now }
    ensures { IfOk result (λ fits. fits ≡ project_fits_changes parts.now) }
{
    let deltas = parts.project.deltas.as_slice();
    let numbers = parts.numbers.as_slice();
    let changes = parts.changes.as_slice();
    if !integration_fits(deltas.len(), changes) {
        return Ok(false);
    }
    if !deltas_fit(deltas, numbers, changes) {
        return Ok(false);
    }
    versions_fit(
        alloc,
        parts.project.next_version,
        parts.files.as_slice(),
        changes,
    )
}

fn files_fit_changes(parts: &Parts) -> bool
    requires { IsReadable parts.now }
    ensures { result ≡ files_fit_changes parts.now }
{
    let deltas = parts.project.deltas.as_slice();
    let numbers = parts.numbers.as_slice();
    let files = parts.files.as_slice();
    let changes = parts.changes.as_slice();
    entries_fit(deltas, files, numbers, changes)
        && locks_fit(numbers, parts.locks.as_slice(), changes)
        && candidates_fit(deltas.len(), files, numbers, changes)
}

// The rules beside one another, where each part by itself keeps its own.
fn blame_beside(alloc: Global, parts: &Parts) -> Result<Option<Blame>, AllocError>
    requires { IsReadable parts.now }
    ensures { IfOk result (λ blame. blame ≡ blamed_beside parts.now) }
{
    if !project_fits_changes(alloc, parts)? {
        return Ok(Some(Blame::Project));
    }
    if !files_fit_changes(parts) {
        return Ok(Some(Blame::Files));
    }
    Ok(None)
}

/// The state file that breaks a rule first, if one does.
pub fn blamed(alloc: Global, parts: &Parts) -> Result<Option<Blame>, AllocError>
    ensures { IfOk result (λ blame. blame ≡ blamed parts.now) }
{
    if !project_stands(parts) {
        return Ok(Some(Blame::Project));
    }
    if !files_stand(parts) {
        return Ok(Some(Blame::Files));
    }
    match bad_change_of(parts) {
        Some(number) => Ok(Some(Blame::Change(number))),
        None => blame_beside(alloc, parts),
    }
}

// The error names the state file that breaks a rule first.
fn check(alloc: Global, parts: &Parts) -> Result<(), CheckError>
    ensures ok { OnOk result (blamed parts.now ≡ None) }
    ensures err { IfErr result (λ error. Names error (blamed parts.now)) }
{
    match blamed(alloc, parts)? {
        Some(file) => Err(CheckError::Blamed(file)),
        None => Ok(()),
    }
}

/// The state of these records, where they keep the rules, and else the state file that breaks one first.
pub fn state_of(alloc: Global, parts: Parts) -> Result<State, CheckError>
    ensures state { IfOk result (λ state. state ≡ parts) }
    ensures ok { OnOk result (blamed parts ≡ None) }
    ensures err { IfErr result (λ error. Names error (blamed parts)) }
{
    match check(alloc, &parts) {
        Ok(()) => Ok(State::of(parts)),
        Err(error) => {
            drop(parts);
            Err(error)
        }
    }
}

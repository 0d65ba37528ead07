// The files of an integration are compared with the candidate's versions.
ghost use Rattle.std.specs.Prelude.{◌≡◌, ℕ, List, IfOk, option_copied};
ghost use Rattle.ae_machine.specs.Call.{call_of, change_of};
ghost use Rattle.ae_machine.specs.Versions.{first_differing, is_read_so, is_row_shown, rows_compared};

use crate::View;
use crate::reading::candidate_tree;
use crate::runs::is_integrating;
use crate::seen::Seen;
use ae_base::{Path, Refusal, Text};
use ae_evidence::FileList;
use ae_types::{State, TreeRows};
use ae_words::Command;
use std::alloc::{AllocError, Global};

/// The versions with which the files that are read are compared: in integration those of the candidate.
pub fn rows_compared(
    alloc: Global,
    state: &State,
    command: &Command,
) -> Result<TreeRows, AllocError>
    ensures { (who : List ℕ) → let call = call_of state.now command.now who in
        IfOk result (λ rows. rows ≡ rows_compared call (change_of call)) }
{
    let Some(number) = command.change else {
        return Ok(TreeRows::new(alloc));
    };
    match state.change(number) {
        Some(change) if is_integrating(change.phase) => {
            candidate_tree(alloc, state, number, change)
        }
        _ => Ok(TreeRows::new(alloc)),
    }
}

// Whether these bytes were read.
fn is_read_so(read: Option<&Text>, bytes: Option<&Text>) -> bool
    ensures { result ≡ is_read_so (option_copied read.entry) (option_copied bytes.entry) }
{
    let Some(read) = read else {
        return false;
    };
    match bytes {
        Some(bytes) => bytes.bytes() == read.bytes(),
        None => false,
    }
}

// Whether what was read at the path of a row is its bytes.
fn is_row_shown(seen: &Seen, row: &(Path, Option<Text>)) -> bool
    ensures { result ≡ is_row_shown seen.now.view.now row.now }
{
    is_read_so(seen.bytes_at(row.0.bytes()), row.1.as_ref())
}

/// The refusal of the first of these files that was read with other bytes.
pub fn files_differ(
    alloc: Global,
    view: &View,
    compared: &FileList,
) -> Result<Option<Refusal>, AllocError>
    ensures { IfOk result (λ refusal. refusal ≡ first_differing view.now compared.now) }
{
    let seen = Seen::of(view);
    for row in compared.as_slice() {
        if !is_row_shown(&seen, row) {
            return Ok(Some(Refusal::Differs(row.0.copy(alloc)?)));
        }
    }
    Ok(None)
}

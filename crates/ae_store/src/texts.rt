// The texts of a state's files.
ghost use Rattle.std.specs.Prelude.{◌≡◌, ◌≤◌, OnOk, IfOk, IfSome, option_copied};
ghost use Rattle.ae_types.specs.Sound.{Sound};
ghost use Rattle.ae_store.specs.Names.{project_file, files_file, change_file};
ghost use Rattle.ae_store.specs.Changed.{text_of};
ghost use Rattle.ae_store.specs.Batching.{change_of_state, numbers_of, IsNumbered, ProjectIsWritten, TableIsWritten, ChangeIsWritten};

use ae_base::ChangeNo;
use ae_schema::{print_change, print_files, print_project};
use ae_types::{Change, State};
use std::alloc::{AllocError, Global};

// A state keeps the rules.
fn note_sound(state: &State)
    ensures { Sound state.now }
{
    state.note_sound();
}

/// The text of `project`; empty where there is no project.
pub(crate) fn project_text(alloc: Global, state: Option<&State>) -> Result<Vec<u8>, AllocError>
    ensures text { IfOk result (λ text. text.items ≡ text_of (option_copied state.entry) project_file) }
    ensures written { OnOk result (ProjectIsWritten (option_copied state.entry)) }
    ensures sound { IfSome (option_copied state.entry) Sound }
    ensures numbered { OnOk result (IsNumbered (option_copied state.entry)) }
{
    match state {
        Some(state) => print_project(alloc, state.project(), state.numbers()),
        None => Ok(Vec::new(alloc)),
    }
}

/// The text of `files`; empty where there is no project.
pub(crate) fn table_text(alloc: Global, state: Option<&State>) -> Result<Vec<u8>, AllocError>
    ensures text { IfOk result (λ text. text.items ≡ text_of (option_copied state.entry) files_file) }
    ensures written { OnOk result (TableIsWritten (option_copied state.entry)) }
{
    match state {
        Some(state) => {
            note_sound(state);
            print_files(alloc, state.files(), state.locks())
        }
        None => Ok(Vec::new(alloc)),
    }
}

fn change_of_state<'a>(state: Option<&'a State>, number: ChangeNo) -> Option<&'a Change>
    ensures change { option_copied result ≡ change_of_state (option_copied state.entry) number }
    ensures sound { IfSome (option_copied state.entry) Sound }
{
    match state {
        Some(state) => {
            note_sound(state);
            state.change(number)
        }
        None => None,
    }
}

/// The text of the file of a change; empty where no such change is looked at.
pub(crate) fn change_text(
    alloc: Global,
    state: Option<&State>,
    number: ChangeNo,
) -> Result<Vec<u8>, AllocError>
    requires within { number ≤ 1999 }
    requires numbered { IsNumbered (option_copied state) }
    ensures text { IfOk result (λ text. text.items ≡ text_of (option_copied state.entry) (change_file number)) }
    ensures written { OnOk result (ChangeIsWritten (option_copied state.entry) number) }
{
    match change_of_state(state, number) {
        Some(change) => print_change(alloc, change),
        None => Ok(Vec::new(alloc)),
    }
}

/// The numbers of all changes.
pub(crate) fn numbers_of<'a>(state: Option<&'a State>) -> &'a [ChangeNo]
    ensures { result.now ≡ numbers_of (option_copied state.entry) }
{
    match state {
        Some(state) => state.numbers(),
        None => &[],
    }
}

// The names of the state files.
ghost use Rattle.std.specs.Prelude.{◌≡◌, ◌≤◌, string_bytes, IfOk};
ghost use Rattle.ae_outside.specs.DiskNames.{IsDiskName};
ghost use Rattle.ae_store.specs.Names.{change_file, blamed_file};

use ae_base::{ChangeNo, Text};
use ae_types::Blame;
use std::alloc::{AllocError, Global};

pub(crate) const PROJECT: &str = "project";

pub(crate) const FILES: &str = "files";

/// The name of the file of this change.
pub(crate) fn change_name(alloc: Global, number: ChangeNo) -> Result<String, AllocError>
    ensures value { IfOk result (λ name. string_bytes name ≡ change_file number) }
    ensures disk { IfOk result (λ name. IsDiskName (string_bytes name)) }
    ensures low { 10 ≤ number }
    ensures high { number ≤ 1999 }
{
    let _digits = number.number();
    let name = format!(in alloc; "change.{number}")?;
    Ok(name)
}

/// The name of the file that is blamed.
pub(crate) fn blamed_name(alloc: Global, blame: Blame) -> Result<Text, AllocError>
    ensures { IfOk result (λ name. name ≡ blamed_file blame) }
{
    let name = match blame {
        Blame::Project => Vec::from_slice(alloc, PROJECT.as_bytes())?,
        Blame::Files => Vec::from_slice(alloc, FILES.as_bytes())?,
        Blame::Change(number) => change_name(alloc, number)?.into_bytes(),
    };
    Ok(Text::of(name))
}

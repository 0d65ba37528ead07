// A project's name.
ghost use Rattle.std.specs.Prelude.{◌≡◌, IfOk};
ghost use Rattle.std.specs.List.{list_all};
ghost use Rattle.ae_base.specs.Bytes.{read_as};
ghost use Rattle.ae_base.specs.Names.{is_project_name, is_name_byte, IsProjectName};

use crate::name_bytes::{is_letter_byte, may_stand_in_name};
use std::alloc::{AllocError, Global};
use std::fmt;
use std::marker::Model;

/// A project's name: 1 to 64 bytes of `A-Za-z0-9._-`, the first a letter. Contracts see the list of its bytes.
#[derive(Debug, Drop)]
pub struct ProjectName {
    bytes: Vec<u8>,
}

impl Model for ProjectName {
    ghost use Rattle.std.specs.Prelude.{List, ℕ};
    ghost use Rattle.ae_base.specs.Names.{IsProjectName};

    ghost Value = { List ℕ };

    ghost view = { λ a. a.bytes.items };

    ghost invariant = { λ a. IsProjectName a.bytes.items };
}

fn are_name_bytes(text: &[u8]) -> bool
    ensures { result ≡ list_all is_name_byte text.now }
{
    text.iter().all(|b| may_stand_in_name(*b))
}

fn project_name_fits(text: &[u8]) -> bool
    ensures { result ≡ is_project_name text.now }
{
    match text {
        [] => false,
        [first, rest @ ..] => is_letter_byte(*first) && rest.len() <= 63 && are_name_bytes(rest),
    }
}

impl ProjectName {
    /// The project name that this text is; `None` exactly where it is none.
    pub fn read(alloc: Global, text: &[u8]) -> Result<Option<ProjectName>, AllocError>
        ensures { IfOk result (λ name. name ≡ read_as is_project_name text.now) }
    {
        if !project_name_fits(text) {
            return Ok(None);
        }
        let bytes = Vec::from_slice(alloc, text)?;
        Ok(Some(ProjectName { bytes }))
    }

    /// An equal one.
    pub fn copy(&self, alloc: Global) -> Result<ProjectName, AllocError>
        ensures { IfOk result (λ name. name ≡ self.now) }
    {
        let bytes = Vec::from_slice(alloc, self.bytes.as_slice())?;
        Ok(ProjectName { bytes })
    }

    /// The same as text: all its bytes are ASCII.
    pub fn as_str(&self) -> &str
        ensures { result.now ≡ self.now }
    {
        match str::from_utf8(self.bytes()) {
            Ok(text) => text,
            Err(_) => unreachable!(),
        }
    }

    /// Its bytes.
    pub fn bytes(&self) -> &[u8]
        ensures value { result.now ≡ self.now }
        ensures name { IsProjectName self.now }
    {
        self.bytes.as_slice()
    }
}

impl fmt::Display for ProjectName {
    ghost use Rattle.std.specs.Prelude.{Some};

    ghost output = { λ name. Some name };

    fn fmt<W: fmt::Write>(&self, f: &mut fmt::Formatter<W>) -> fmt::Result {
        f.write_str(self.as_str())
    }
}

impl PartialEq for ProjectName {
    ghost use Rattle.std.specs.Str.{bytes_eq};
    ghost use Rattle.std.specs.Cmp.{partial_equiv_from_equiv};
    ghost use Rattle.std.specs.Cmp.Lexicographic.{nat_list_eq_equiv};

    ghost eq = { bytes_eq };

    ghost laws = { partial_equiv_from_equiv nat_list_eq_equiv };

    fn eq(&self, other: &ProjectName) -> bool {
        self.bytes() == other.bytes()
    }
}

impl Eq for ProjectName {
    ghost use Rattle.std.specs.Cmp.Lexicographic.{nat_list_eq_equiv};

    ghost laws = { nat_list_eq_equiv };
}

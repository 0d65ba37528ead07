// A user's name.
ghost use Rattle.std.specs.Prelude.{◌≡◌, IfOk};
ghost use Rattle.std.specs.List.{list_all};
ghost use Rattle.ae_base.specs.Bytes.{read_as};
ghost use Rattle.ae_base.specs.Names.{is_user, is_user_byte, IsUser};

use crate::name_bytes::{is_lower_byte, may_stand_in_user};
use std::alloc::{AllocError, Global};
use std::fmt;
use std::hash::{Hash, Hasher};
use std::marker::Model;

/// A user's name: 1 to 32 bytes of `a-z0-9_.-`, the first a letter or `_`. Contracts see the list of its bytes.
#[derive(Debug, Drop)]
pub struct User {
    bytes: Vec<u8>,
}

impl Model for User {
    ghost use Rattle.std.specs.Prelude.{List, ℕ};
    ghost use Rattle.ae_base.specs.Names.{IsUser};

    ghost Value = { List ℕ };

    ghost view = { λ a. a.bytes.items };

    ghost invariant = { λ a. IsUser a.bytes.items };
}

fn are_user_bytes(text: &[u8]) -> bool
    ensures { result ≡ list_all is_user_byte text.now }
{
    text.iter().all(|b| may_stand_in_user(*b))
}

fn user_fits(text: &[u8]) -> bool
    ensures { result ≡ is_user text.now }
{
    match text {
        [] => false,
        [first, rest @ ..] => {
            (is_lower_byte(*first) || *first == b'_') && rest.len() <= 31 && are_user_bytes(rest)
        }
    }
}

impl User {
    /// The user whose name this text is; `None` exactly where it is no user's name.
    pub fn read(alloc: Global, text: &[u8]) -> Result<Option<User>, AllocError>
        ensures { IfOk result (λ user. user ≡ read_as is_user text.now) }
    {
        if !user_fits(text) {
            return Ok(None);
        }
        let bytes = Vec::from_slice(alloc, text)?;
        Ok(Some(User { bytes }))
    }

    /// An equal one.
    pub fn copy(&self, alloc: Global) -> Result<User, AllocError>
        ensures { IfOk result (λ user. user ≡ self.now) }
    {
        let bytes = Vec::from_slice(alloc, self.bytes.as_slice())?;
        Ok(User { bytes })
    }

    /// The same as text: all its bytes are ASCII.
    pub fn as_str(&self) -> &str
        ensures { result.now ≡ self.now }
    {
        match str::from_utf8(self.bytes()) {
            Ok(text) => text,
            Err(_) => unreachable!(),
        }
    }

    /// Its bytes.
    pub fn bytes(&self) -> &[u8]
        ensures value { result.now ≡ self.now }
        ensures user { IsUser self.now }
    {
        self.bytes.as_slice()
    }
}

impl fmt::Display for User {
    ghost use Rattle.std.specs.Prelude.{Some};

    ghost output = { λ user. Some user };

    fn fmt<W: fmt::Write>(&self, f: &mut fmt::Formatter<W>) -> fmt::Result {
        f.write_str(self.as_str())
    }
}

impl PartialEq for User {
    ghost use Rattle.std.specs.Str.{bytes_eq};
    ghost use Rattle.std.specs.Cmp.{partial_equiv_from_equiv};
    ghost use Rattle.std.specs.Cmp.Lexicographic.{nat_list_eq_equiv};

    ghost eq = { bytes_eq };

    ghost laws = { partial_equiv_from_equiv nat_list_eq_equiv };

    fn eq(&self, other: &User) -> bool {
        self.bytes() == other.bytes()
    }
}

impl Eq for User {
    ghost use Rattle.std.specs.Cmp.Lexicographic.{nat_list_eq_equiv};

    ghost laws = { nat_list_eq_equiv };
}

impl Hash for User {
    ghost use Rattle.std.specs.Hash as fed;
    ghost use Rattle.std.specs.Cmp.Rules.{hashing};
    ghost use Rattle.std.proofs.Common.{rules};

    ghost hash_input = { fed.slice fed.u8 };

    ghost respects_eq = { Prim.search (hashing, rules) };

    fn hash<H: Hasher>(&self, state: &mut H) {
        self.bytes().hash(state);
    }
}

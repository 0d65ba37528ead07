// How names are spelled, and the numbers of changes and deltas.
ghost use Rattle.std.specs.Prelude.{◌≡◌, ◌↔◌, [], IsTrue};
ghost use Rattle.ae_text.specs.Tree.{str};
ghost use Rattle.ae_text.specs.View.{node};

use crate::canonical::Cursor;
use crate::parts::string_in;
use crate::value::{Decode, Encode, guess_optional};
use ae_base::limits::MOST_DELTAS;
use ae_base::{ChangeNo, Delta, Path, ProjectName, User};
use ae_text::{Tree, put_number, put_string};
use std::alloc::{AllocError, Global};

impl Decode for Path {
    ghost use Rattle.std.specs.Prelude.{codes, refl};
    ghost use Rattle.ae_text.specs.Tree.{str};
    ghost use Rattle.ae_base.specs.Names.{IsPath};

    ghost spelled = { str };

    ghost Fits = { IsPath };

    fn of_tree(alloc: Global, tree: &Tree) -> Result<Option<Path>, AllocError> {
        match string_in(tree) {
            Some(text) => Path::read(alloc, text),
            None => Ok(None),
        }
    }

    fn guess(alloc: Global, text: &mut Cursor) -> Result<Option<Path>, AllocError> {
        match text.name() {
            Some(name) => Path::read(alloc, name),
            None => Ok(None),
        }
    }

    ghost some_value = { (codes "a", refl) };
}

impl Encode for Path {
    fn put(&self, out: &mut Vec<u8>) -> Result<(), AllocError> {
        put_string(out, self.bytes())
    }
}

impl Decode for User {
    ghost use Rattle.std.specs.Prelude.{codes, refl};
    ghost use Rattle.ae_text.specs.Tree.{str};
    ghost use Rattle.ae_base.specs.Names.{IsUser};

    ghost spelled = { str };

    ghost Fits = { IsUser };

    fn of_tree(alloc: Global, tree: &Tree) -> Result<Option<User>, AllocError> {
        match string_in(tree) {
            Some(text) => User::read(alloc, text),
            None => Ok(None),
        }
    }

    fn guess(alloc: Global, text: &mut Cursor) -> Result<Option<User>, AllocError> {
        match text.name() {
            Some(name) => User::read(alloc, name),
            None => Ok(None),
        }
    }

    ghost some_value = { (codes "a", refl) };
}

impl Encode for User {
    fn put(&self, out: &mut Vec<u8>) -> Result<(), AllocError> {
        put_string(out, self.bytes())
    }
}

impl Decode for ProjectName {
    ghost use Rattle.std.specs.Prelude.{codes, refl};
    ghost use Rattle.ae_text.specs.Tree.{str};
    ghost use Rattle.ae_base.specs.Names.{IsProjectName};

    ghost spelled = { str };

    ghost Fits = { IsProjectName };

    fn of_tree(alloc: Global, tree: &Tree) -> Result<Option<ProjectName>, AllocError> {
        match string_in(tree) {
            Some(text) => ProjectName::read(alloc, text),
            None => Ok(None),
        }
    }

    fn guess(alloc: Global, text: &mut Cursor) -> Result<Option<ProjectName>, AllocError> {
        match text.name() {
            Some(name) => ProjectName::read(alloc, name),
            None => Ok(None),
        }
    }

    ghost some_value = { (codes "a", refl) };
}

impl Encode for ProjectName {
    fn put(&self, out: &mut Vec<u8>) -> Result<(), AllocError> {
        put_string(out, self.bytes())
    }
}

fn is_empty_string(tree: &Tree) -> bool
    ensures { IsTrue result ↔ (node tree.now ≡ str []) }
{
    match tree {
        Tree::Str(text) => text.bytes().is_empty(),
        _ => false,
    }
}

impl Decode for Option<Path> {
    ghost use Rattle.std.specs.Prelude.{None, IfSome};
    ghost use Rattle.ae_base.specs.Names.{IsPath};
    ghost use Rattle.ae_schema.specs.Spelled.{optional};

    ghost spelled = { optional };

    ghost Fits = { λ path. IfSome path IsPath };

    fn of_tree(alloc: Global, tree: &Tree) -> Result<Option<Option<Path>>, AllocError> {
        if is_empty_string(tree) {
            return Ok(Some(None));
        }
        match Path::of_tree(alloc, tree)? {
            Some(path) => Ok(Some(Some(path))),
            None => Ok(None),
        }
    }

    fn guess(alloc: Global, text: &mut Cursor) -> Result<Option<Option<Path>>, AllocError> {
        guess_optional(alloc, b"\"\"", text)
    }

    ghost some_value = { (None, tt) };
}

impl Encode for Option<Path> {
    fn put(&self, out: &mut Vec<u8>) -> Result<(), AllocError> {
        match self {
            Some(path) => path.put(out),
            None => put_string(out, b""),
        }
    }
}

impl Decode for Option<User> {
    ghost use Rattle.std.specs.Prelude.{None, IfSome};
    ghost use Rattle.ae_base.specs.Names.{IsUser};
    ghost use Rattle.ae_schema.specs.Spelled.{optional};

    ghost spelled = { optional };

    ghost Fits = { λ user. IfSome user IsUser };

    fn of_tree(alloc: Global, tree: &Tree) -> Result<Option<Option<User>>, AllocError> {
        if is_empty_string(tree) {
            return Ok(Some(None));
        }
        match User::of_tree(alloc, tree)? {
            Some(user) => Ok(Some(Some(user))),
            None => Ok(None),
        }
    }

    fn guess(alloc: Global, text: &mut Cursor) -> Result<Option<Option<User>>, AllocError> {
        guess_optional(alloc, b"\"\"", text)
    }

    ghost some_value = { (None, tt) };
}

impl Encode for Option<User> {
    fn put(&self, out: &mut Vec<u8>) -> Result<(), AllocError> {
        match self {
            Some(user) => user.put(out),
            None => put_string(out, b""),
        }
    }
}

impl Decode for ChangeNo {
    ghost use Rattle.ae_text.specs.Tree.{number};
    ghost use Rattle.ae_schema.specs.Fits.{IsChangeNo};
    ghost use Rattle.std.proofs.Common.{rules};

    ghost spelled = { number };

    ghost Fits = { IsChangeNo };

    fn of_tree(_alloc: Global, tree: &Tree) -> Result<Option<ChangeNo>, AllocError> {
        match tree {
            Tree::Number(n) if 10 <= *n && *n <= 1999 => Ok(Some(ChangeNo::of(*n as u16))),
            _ => Ok(None),
        }
    }

    fn guess(_alloc: Global, text: &mut Cursor) -> Result<Option<ChangeNo>, AllocError> {
        Ok(ChangeNo::read(text.word()))
    }

    ghost some_value = { (10, Prim.search rules) };
}

impl Encode for ChangeNo {
    fn put(&self, out: &mut Vec<u8>) -> Result<(), AllocError> {
        put_number(out, u64::from(self.number()))
    }
}

impl Decode for Delta {
    ghost use Rattle.ae_text.specs.Tree.{number};
    ghost use Rattle.ae_schema.specs.Fits.{IsDelta};
    ghost use Rattle.std.proofs.Common.{rules};

    ghost spelled = { number };

    ghost Fits = { IsDelta };

    fn of_tree(_alloc: Global, tree: &Tree) -> Result<Option<Delta>, AllocError> {
        match tree {
            Tree::Number(n) if *n <= MOST_DELTAS as u64 => Ok(Some(Delta::of(*n as u16))),
            _ => Ok(None),
        }
    }

    fn guess(_alloc: Global, text: &mut Cursor) -> Result<Option<Delta>, AllocError> {
        Ok(Delta::read(text.word()))
    }

    ghost some_value = { (0, Prim.search rules) };
}

impl Encode for Delta {
    fn put(&self, out: &mut Vec<u8>) -> Result<(), AllocError> {
        put_number(out, u64::from(self.number()))
    }
}

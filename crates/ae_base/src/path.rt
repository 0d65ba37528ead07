// The path of a file below a directory.
ghost use Rattle.std.specs.Prelude.{◌≡◌, ◌↔◌, IfOk, IsTrue};
ghost use Rattle.ae_base.specs.Bytes.{read_as};
ghost use Rattle.std.specs.List.{list_all, position};
ghost use Rattle.ae_base.specs.Names.{is_path, is_path_byte, is_part, is_slash, parts, starts_with_dash, BeginsWithSlash, IsPath, IsFolderOf, Clash};

use crate::name_bytes::may_stand_in_path;
use std::alloc::{AllocError, Global};
use std::fmt;
use std::marker::Model;

/// The path of a file below a directory: 1 to 255 bytes, parts of `A-Za-z0-9._+-` joined by `/`, no part empty, `.`
/// or `..`, not beginning with `-`, and not `aegis.log`. Contracts see the list of its bytes.
#[derive(Debug, Drop)]
pub struct Path {
    bytes: Vec<u8>,
}

impl Model for Path {
    ghost use Rattle.std.specs.Prelude.{List, ℕ};
    ghost use Rattle.ae_base.specs.Names.{IsPath};

    ghost Value = { List ℕ };

    ghost view = { λ a. a.bytes.items };

    ghost invariant = { λ a. IsPath a.bytes.items };
}

fn are_path_bytes(text: &[u8]) -> bool
    ensures { result ≡ list_all is_path_byte text.now }
{
    text.iter().all(|b| may_stand_in_path(*b))
}

fn part_fits(part: &[u8]) -> bool
    ensures { result ≡ is_part part.now }
{
    !part.is_empty() && part != b".".as_slice() && part != b"..".as_slice() && are_path_bytes(part)
}

fn first_slash(text: &[u8]) -> Option<usize>
    ensures { result ≡ position is_slash text.now }
{
    text.iter().position(|b| *b == b'/')
}

// Whether each part between the `/` is good.
fn parts_fit(text: &[u8]) -> bool
    ensures { result ≡ list_all is_part (parts text.now) }
{
    match first_slash(text) {
        None => part_fits(text),
        Some(at) => part_fits(&text[..at]) && parts_fit(&text[at + 1..]),
    }
}

fn begins_with_dash(text: &[u8]) -> bool
    ensures { result ≡ starts_with_dash text.now }
{
    match text {
        [] => false,
        [first, ..] => *first == b'-',
    }
}

fn path_fits(text: &[u8]) -> bool
    ensures { result ≡ is_path text.now }
{
    !begins_with_dash(text)
        && text != b"aegis.log".as_slice()
        && text.len() <= 255
        && parts_fit(text)
}

fn begins_with_slash(text: &[u8]) -> bool
    ensures { IsTrue result ↔ BeginsWithSlash text.now }
{
    match text {
        [] => false,
        [first, ..] => *first == b'/',
    }
}

// Whether the path goes through the folder.
fn is_below(path: &[u8], folder: &[u8]) -> bool
    ensures { IsTrue result ↔ IsFolderOf folder.now path.now }
{
    match path.strip_prefix(folder) {
        Some(rest) => begins_with_slash(rest),
        None => false,
    }
}

impl Path {
    /// The path that this text is; `None` exactly where it is none.
    pub fn read(alloc: Global, text: &[u8]) -> Result<Option<Path>, AllocError>
        ensures { IfOk result (λ path. path ≡ read_as is_path text.now) }
    {
        if !path_fits(text) {
            return Ok(None);
        }
        let bytes = Vec::from_slice(alloc, text)?;
        Ok(Some(Path { bytes }))
    }

    /// Whether one of the two is the other followed by `/` and more: one name can't be a file and a folder.
    pub fn clashes(&self, other: &Path) -> bool
        ensures { IsTrue result ↔ Clash self.now other.now }
    {
        is_below(other.bytes(), self.bytes()) || is_below(self.bytes(), other.bytes())
    }

    /// An equal one.
    pub fn copy(&self, alloc: Global) -> Result<Path, AllocError>
        ensures { IfOk result (λ path. path ≡ self.now) }
    {
        let bytes = Vec::from_slice(alloc, self.bytes.as_slice())?;
        Ok(Path { bytes })
    }

    /// The same as text: all its bytes are ASCII.
    pub fn as_str(&self) -> &str
        ensures { result.now ≡ self.now }
    {
        match str::from_utf8(self.bytes()) {
            Ok(text) => text,
            Err(_) => unreachable!(),
        }
    }

    /// Its bytes.
    pub fn bytes(&self) -> &[u8]
        ensures value { result.now ≡ self.now }
        ensures path { IsPath self.now }
    {
        self.bytes.as_slice()
    }
}

impl fmt::Display for Path {
    ghost use Rattle.std.specs.Prelude.{Some};

    ghost output = { λ path. Some path };

    fn fmt<W: fmt::Write>(&self, f: &mut fmt::Formatter<W>) -> fmt::Result {
        f.write_str(self.as_str())
    }
}

impl PartialEq for Path {
    ghost use Rattle.std.specs.Str.{bytes_eq};
    ghost use Rattle.std.specs.Cmp.{partial_equiv_from_equiv};
    ghost use Rattle.std.specs.Cmp.Lexicographic.{nat_list_eq_equiv};

    ghost eq = { bytes_eq };

    ghost laws = { partial_equiv_from_equiv nat_list_eq_equiv };

    fn eq(&self, other: &Path) -> bool {
        self.bytes() == other.bytes()
    }
}

impl Eq for Path {
    ghost use Rattle.std.specs.Cmp.Lexicographic.{nat_list_eq_equiv};

    ghost laws = { nat_list_eq_equiv };
}

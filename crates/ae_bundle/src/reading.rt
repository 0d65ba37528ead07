// The text of a change set, taken in piece by piece.
ghost use Rattle.std.specs.Prelude.{◌≡◌, ◌<◌, ◌≤◌, ◌+◌, ◌^◌, ◌++◌, ◌∷◌, ◌↔◌, [], ℕ, List, true, false, Some, length, IfOk, IfSome, IfNone, OnOk, IsErrOf, IsTrue};
ghost use Rattle.sha2.specs.Hashers.{Holds256};
ghost use Rattle.ae_base.specs.Rows.{text_cmp};
ghost use Rattle.ae_base.specs.Words.{cause_word};
ghost use Rattle.ae_base.specs.declared.words.Cause.{Cause};
ghost use Rattle.ae_types.specs.Ordered.{Ascends};
ghost use Rattle.ae_bundle.specs.declared.bundle.Bundle.{Bundle};
ghost use Rattle.ae_bundle.specs.Bundled.{line_end, cause_label, end_label, end_of, bundle_path, Bundled, BeginsNone};
ghost use Rattle.ae_bundle.specs.Reading.{fed, size_of, awaits_line, at_end, file_of, Without, Announces, IsAfter, MayFollow, IsGood, Takes, TakesFront, Passes};

use crate::digits::hex_digits;
use crate::fields::{FileLine, after_label, place_of, read_file_line, read_size};
use crate::{Bundle, BundleError, BundleFile, BundleFileList};
use ae_base::limits::{MOST_ATTRIBUTE_BYTES, MOST_CHANGE_FILES, MOST_FROZEN_BYTES};
use ae_base::{Cause, Path, Text};
use ae_types::is_path_below;
use sha2::{Digest, Sha256};
use std::alloc::{AllocError, Global};
use std::mem;

/// The most bytes of a line, without its end.
const MOST_LINE_BYTES: usize = 277;

/// What comes next: a line, or the bytes that a line announced, so many in all.
#[derive(Drop)]
pub(crate) enum Next {
    Head,
    Brief,
    BriefBytes(usize),
    Description,
    DescriptionBytes(usize),
    Cause,
    File,
    FileBytes(FileLine),
    End,
}

/// What came of a text.
#[derive(Drop)]
pub(crate) struct Reading {
    pub next: Next,
    /// The change set as far as it came whole.
    pub draft: Bundle,
    /// What came of the line, or of the bytes that it announced.
    pub held: Vec<u8>,
    /// How many bytes the files have that came.
    pub sum: usize,
    /// The digest of all that came, but for a line that isn't whole.
    pub hasher: Sha256,
}

// Whether the path comes after those of the files, which ascend.
fn comes_after(files: &[BundleFile], path: &Path) -> bool
    requires { Ascends text_cmp bundle_path files.now }
    ensures { IsTrue result ↔ IsAfter path.now files.now }
{
    match files.last() {
        Some(file) => is_path_below(&file.path, path),
        None => true,
    }
}

// How many bytes of a text a line announces that begins with this label.
fn size_after(label: &[u8], line: &[u8]) -> Option<usize>
    ensures some { IfSome result (λ size. Announces label.now line.now size) }
    ensures none { IfNone result ((size : ℕ) → Announces label.now line.now size → ⊥) }
{
    let digits = after_label(label, line)?;
    read_size(MOST_ATTRIBUTE_BYTES, digits)
}

// The cause that a line says.
fn cause_after(line: &[u8]) -> Option<Cause>
    ensures some { IfSome result (λ cause. line.now ≡ cause_label ++ cause_word cause) }
    ensures none { IfNone result ((cause : Cause) → line.now ≡ cause_label ++ cause_word cause → ⊥) }
{
    let word = after_label(b"cause ", line)?;
    Cause::read(word)
}

// Whether a line begins as the last one does.
fn begins_as_end(line: &[u8]) -> bool
    ensures yes { result ≡ true → (digits : List ℕ) × (line.now ≡ end_label ++ digits) }
    ensures no { result ≡ false → (digits : List ℕ) → line.now ≡ end_label ++ digits → ⊥ }
{
    after_label(b"end ", line).is_some()
}

// Whether this is the last line of a text, whose front the hasher holds.
fn is_end(line: &[u8], hasher: Sha256) -> bool
    ensures { (front : List ℕ) → Holds256 hasher front → IsTrue result ↔ (line.now ≡ end_of front) }
{
    let digits = hex_digits(&hasher.finalize());
    match after_label(b"end ", line) {
        Some(rest) => rest == digits.as_slice(),
        None => false,
    }
}

impl Reading {
    /// Nothing came so far.
    pub(crate) fn new(alloc: Global) -> Reading
        ensures good { IsGood result }
        ensures fed { fed result ≡ [] }
    {
        Reading {
            next: Next::Head,
            draft: Bundle {
                brief: Text::of(Vec::new(alloc)),
                description: Text::of(Vec::new(alloc)),
                cause: Cause::Chain,
                files: BundleFileList::new(alloc),
            },
            held: Vec::new(alloc),
            sum: 0,
            hasher: Sha256::new(),
        }
    }

    // A line came whole: it is digested with its end, and let go.
    fn pass_line(&mut self)
        ensures { Passes self.old self.new }
    {
        self.hasher.update(self.held.as_slice());
        self.hasher.update("\n");
        self.held.clear();
    }

    // The first line came whole.
    fn end_head(&mut self) -> Result<(), BundleError>
        requires good { IsGood self.old }
        requires head { self.old.next ≡ Next.Head }
        ensures ok { OnOk result (Takes self.old self.new (line_end ∷ [])) }
        ensures bad { IsErrOf result BundleError.Bad → BeginsNone (fed self.old ++ line_end ∷ []) }
    {
        if self.held.as_slice() != b"aegis-change 1".as_slice() {
            return Err(BundleError::Bad);
        }
        self.pass_line();
        self.next = Next::Brief;
        Ok(())
    }

    // The line came whole that announces the brief description.
    fn end_brief(&mut self, alloc: Global) -> Result<(), BundleError>
        requires good { IsGood self.old }
        requires brief { self.old.next ≡ Next.Brief }
        ensures ok { OnOk result (Takes self.old self.new (line_end ∷ [])) }
        ensures bad { IsErrOf result BundleError.Bad → BeginsNone (fed self.old ++ line_end ∷ []) }
    {
        let Some(size) = size_after(b"brief ", self.held.as_slice()) else {
            return Err(BundleError::Bad);
        };
        self.pass_line();
        self.held = Vec::with_capacity(alloc, size)?;
        self.next = Next::BriefBytes(size);
        Ok(())
    }

    // The line came whole that announces the description.
    fn end_description(&mut self, alloc: Global) -> Result<(), BundleError>
        requires good { IsGood self.old }
        requires description { self.old.next ≡ Next.Description }
        ensures ok { OnOk result (Takes self.old self.new (line_end ∷ [])) }
        ensures bad { IsErrOf result BundleError.Bad → BeginsNone (fed self.old ++ line_end ∷ []) }
    {
        let Some(size) = size_after(b"description ", self.held.as_slice()) else {
            return Err(BundleError::Bad);
        };
        self.pass_line();
        self.held = Vec::with_capacity(alloc, size)?;
        self.next = Next::DescriptionBytes(size);
        Ok(())
    }

    // The line of the cause came whole.
    fn end_cause(&mut self) -> Result<(), BundleError>
        requires good { IsGood self.old }
        requires cause { self.old.next ≡ Next.Cause }
        ensures ok { OnOk result (Takes self.old self.new (line_end ∷ [])) }
        ensures bad { IsErrOf result BundleError.Bad → BeginsNone (fed self.old ++ line_end ∷ []) }
    {
        let Some(cause) = cause_after(self.held.as_slice()) else {
            return Err(BundleError::Bad);
        };
        self.pass_line();
        self.draft.cause = cause;
        self.next = Next::File;
        Ok(())
    }

    // Whether a file may come next.
    fn may_come(&self, file: &FileLine) -> bool
        requires { IsGood self.now }
        ensures { IsTrue result ↔ MayFollow self.now.draft file.now }
    {
        self.draft.files.len() < MOST_CHANGE_FILES
            && file.size <= MOST_FROZEN_BYTES - self.sum
            && comes_after(self.draft.files.as_slice(), &file.path)
    }

    // The line came whole that announces a file.
    fn begin_file(&mut self, alloc: Global) -> Result<(), BundleError>
        requires good { IsGood self.old }
        requires file { self.old.next ≡ Next.File }
        requires no_end { (digits : List ℕ) → self.old.held.items ≡ end_label ++ digits → ⊥ }
        ensures ok { OnOk result (Takes self.old self.new (line_end ∷ [])) }
        ensures bad { IsErrOf result BundleError.Bad → BeginsNone (fed self.old ++ line_end ∷ []) }
    {
        let Some(file) = read_file_line(alloc, self.held.as_slice())? else {
            return Err(BundleError::Bad);
        };
        if !self.may_come(&file) {
            return Err(BundleError::Bad);
        }
        self.pass_line();
        self.held = Vec::with_capacity(alloc, file.size)?;
        self.next = Next::FileBytes(file);
        Ok(())
    }

    // The last line came whole.
    fn end_text(&mut self) -> Result<(), BundleError>
        requires good { IsGood self.old }
        requires file { self.old.next ≡ Next.File }
        requires end { (digits : List ℕ) × (self.old.held.items ≡ end_label ++ digits) }
        ensures ok { OnOk result (Takes self.old self.new (line_end ∷ [])) }
        ensures bad { IsErrOf result BundleError.Bad → BeginsNone (fed self.old ++ line_end ∷ []) }
    {
        let hasher = mem::replace(&mut self.hasher, Sha256::new());
        if self.draft.files.len() == 0 {
            return Err(BundleError::Bad);
        }
        if !is_end(self.held.as_slice(), hasher) {
            return Err(BundleError::Bad);
        }
        self.next = Next::End;
        Ok(())
    }

    // A line came whole.
    fn end_line(&mut self, alloc: Global) -> Result<(), BundleError>
        requires good { IsGood self.old }
        requires line { awaits_line self.old.next ≡ true }
        ensures ok { OnOk result (Takes self.old self.new (line_end ∷ [])) }
        ensures bad { IsErrOf result BundleError.Bad → BeginsNone (fed self.old ++ line_end ∷ []) }
    {
        match &self.next {
            Next::Head => self.end_head(),
            Next::Brief => self.end_brief(alloc),
            Next::Description => self.end_description(alloc),
            Next::Cause => self.end_cause(),
            Next::File => {
                if begins_as_end(self.held.as_slice()) {
                    self.end_text()
                } else {
                    self.begin_file(alloc)
                }
            }
            _ => unreachable!(),
        }
    }

    // Takes in a part of a line.
    fn take_part(&mut self, part: &[u8]) -> Result<(), BundleError>
        requires good { IsGood self.old }
        requires line { awaits_line self.old.next ≡ true }
        requires whole { Without line_end part.now }
        ensures ok { OnOk result (Takes self.old self.new part.now) }
        ensures next { self.new.next ≡ self.old.next }
        ensures bad { IsErrOf result BundleError.Bad → BeginsNone (fed self.old ++ part.now) }
    {
        if MOST_LINE_BYTES - self.held.len() < part.len() {
            return Err(BundleError::Bad);
        }
        self.held.extend_from_slice(part)?;
        Ok(())
    }

    // Takes in what is left of a line, or a part of it.
    fn take_line<'a>(&mut self, alloc: Global, piece: &'a [u8]) -> Result<&'a [u8], BundleError>
        requires good { IsGood self.old }
        requires line { awaits_line self.old.next ≡ true }
        requires some { 0 < length piece.now }
        ensures ok { IfOk result (λ rest. TakesFront self.old self.new piece.now rest.now) }
        ensures bad { IsErrOf result BundleError.Bad → BeginsNone (fed self.old ++ piece.now) }
    {
        match place_of(b'\n', piece) {
            Some(end) => {
                if let Err(error) = self.take_part(&piece[..end]) {
                    return Err(error);
                }
                if let Err(error) = self.end_line(alloc) {
                    return Err(error);
                }
                Ok(&piece[end + 1..])
            }
            None => {
                self.take_part(piece)?;
                Ok(&piece[piece.len()..])
            }
        }
    }

    // A file came whole.
    fn add_file(&mut self, file: FileLine, bytes: Text) -> Result<(), AllocError>
        requires sum { self.old.sum + file.size < 2 ^ 64 }
        ensures files { OnOk result (self.new.draft ≡
            record self.old.draft { files = self.old.draft.files ++ file_of file bytes ∷ [] }) }
        ensures sum { self.new.sum ≡ self.old.sum + file.size }
        ensures same { (self.new.next ≡ self.old.next) × (self.new.held ≡ self.old.held)
            × (self.new.hasher ≡ self.old.hasher) }
    {
        self.sum += file.size;
        self.draft.files.push(BundleFile {
            path: file.path,
            action: file.action,
            usage: file.usage,
            bytes,
        })
    }

    // The bytes that a line announced came whole, and the line end after them.
    fn end_bytes(&mut self, alloc: Global) -> Result<(), AllocError>
        requires good { IsGood self.old }
        requires full { size_of self.old.next ≡ Some (length self.old.held.items) }
        ensures { OnOk result (Takes self.old self.new (line_end ∷ [])) }
    {
        self.hasher.update("\n");
        let bytes = Text::of(mem::replace(&mut self.held, Vec::new(alloc)));
        match mem::replace(&mut self.next, Next::File) {
            Next::BriefBytes(_) => {
                self.draft.brief = bytes;
                self.next = Next::Description;
                Ok(())
            }
            Next::DescriptionBytes(_) => {
                self.draft.description = bytes;
                self.next = Next::Cause;
                Ok(())
            }
            Next::FileBytes(file) => self.add_file(file, bytes),
            _ => unreachable!(),
        }
    }

    // Takes in the line end after the bytes that a line announced.
    fn take_end<'a>(&mut self, alloc: Global, piece: &'a [u8]) -> Result<&'a [u8], BundleError>
        requires good { IsGood self.old }
        requires full { size_of self.old.next ≡ Some (length self.old.held.items) }
        requires some { 0 < length piece.now }
        ensures ok { IfOk result (λ rest. TakesFront self.old self.new piece.now rest.now) }
        ensures bad { IsErrOf result BundleError.Bad → BeginsNone (fed self.old ++ piece.now) }
    {
        if piece[0] != b'\n' {
            return Err(BundleError::Bad);
        }
        self.end_bytes(alloc)?;
        Ok(&piece[1..])
    }

    // Takes in bytes that a line announced, so many in all.
    fn take_bytes<'a>(
        &mut self,
        alloc: Global,
        size: usize,
        piece: &'a [u8],
    ) -> Result<&'a [u8], BundleError>
        requires good { IsGood self.old }
        requires size { size_of self.old.next ≡ Some size }
        requires some { 0 < length piece.now }
        ensures ok { IfOk result (λ rest. TakesFront self.old self.new piece.now rest.now) }
        ensures bad { IsErrOf result BundleError.Bad → BeginsNone (fed self.old ++ piece.now) }
    {
        let left = size - self.held.len();
        if left == 0 {
            return self.take_end(alloc, piece);
        }
        let (bytes, rest) = piece.split_at(left.min(piece.len()));
        self.held.extend_from_slice(bytes)?;
        self.hasher.update(bytes);
        Ok(rest)
    }

    // How many bytes the last line announced, where bytes come.
    fn announced(&self) -> Option<usize>
        ensures { result ≡ size_of self.now.next }
    {
        match &self.next {
            Next::BriefBytes(size) | Next::DescriptionBytes(size) => Some(*size),
            Next::FileBytes(file) => Some(file.size),
            _ => None,
        }
    }

    // Takes in the first bytes of a piece.
    fn take_front<'a>(&mut self, alloc: Global, piece: &'a [u8]) -> Result<&'a [u8], BundleError>
        requires good { IsGood self.old }
        requires some { 0 < length piece.now }
        ensures ok { IfOk result (λ rest. TakesFront self.old self.new piece.now rest.now) }
        ensures bad { IsErrOf result BundleError.Bad → BeginsNone (fed self.old ++ piece.now) }
    {
        if let Some(size) = self.announced() {
            return self.take_bytes(alloc, size, piece);
        }
        if let Next::End = &self.next {
            return Err(BundleError::Bad);
        }
        self.take_line(alloc, piece)
    }

    /// Takes in a piece.
    pub(crate) fn take(&mut self, alloc: Global, piece: &[u8]) -> Result<(), BundleError>
        requires { IsGood self.old }
        ensures ok { OnOk result (Takes self.old self.new piece.now) }
        ensures bad { IsErrOf result BundleError.Bad → BeginsNone (fed self.old ++ piece.now) }
    {
        let mut rest = piece;
        while !rest.is_empty() {
            rest = self.take_front(alloc, rest)?;
        }
        Ok(())
    }

    // Whether all came.
    fn is_at_end(&self) -> bool
        ensures { result ≡ at_end self.now.next }
    {
        match &self.next {
            Next::End => true,
            _ => false,
        }
    }

    /// The change set, where its text came whole.
    pub(crate) fn end(self) -> Option<Bundle>
        requires { IsGood self }
        ensures some { IfSome result (λ bundle. Bundled (fed self) bundle) }
        ensures none { IfNone result ((bundle : Bundle) → Bundled (fed self) bundle → ⊥) }
    {
        if self.is_at_end() {
            Some(self.draft)
        } else {
            None
        }
    }
}

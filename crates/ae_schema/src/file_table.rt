// The file of the file table: the rows of files, and the locks.
ghost use Rattle.std.specs.Prelude.{◌≡◌, ℕ, List, Some, Err, length, IfSome, IfOk, OnOk, IsTrue, map};
ghost use Rattle.ae_text.specs.Canonical.{fields_text};
ghost use Rattle.ae_text.specs.View.{members_of};
ghost use Rattle.ae_types.specs.declared.file_table.FileRow.{FileRow};
ghost use Rattle.ae_types.specs.declared.file_table.Lock.{Lock};
ghost use Rattle.ae_schema.specs.Records.{IsTextOf, IsBadLine, IsAnswer, IsRefusal};
ghost use Rattle.ae_schema.specs.Files.{files_fields};
ghost use Rattle.ae_schema.specs.Fits.{HoldsFiles, FitsFiles, FilesAscend};
ghost use Rattle.ae_schema.specs.Put.{ArePut, lines};
ghost use Rattle.ae_schema.specs.Shapes.{row_from, files_from, file_version_from, lock_from};

use crate::SchemaError;
use crate::ascending::Ascending;
use crate::canonical::Cursor;
use crate::fields::{End, Then};
use crate::lists::put_list_line;
use crate::record::{guess_record, read_record};
use crate::structure::{guess_structure, read_structure};
use crate::value::{Decode, Encode, Row, put_both, put_field, put_structure};
use ae_base::{ChangeNo, Delta, Path, Usage};
use ae_text::Tree;
use ae_types::{FileRow, FileRows, FileVersion, FileVersionList, Lock, LockList, VersionRef};
use std::alloc::{AllocError, Global};

// The names of its fields.
const FILE_VERSION_NAMES: [&[u8]; 3] = [b"delta", b"usage", b"version"];

type FileVersionFields = Then<Delta, Then<Usage, Then<Option<VersionRef>, End>>>;

fn file_version_of(fields: FileVersionFields) -> FileVersion
    ensures { result ≡ file_version_from fields }
{
    let Then { first: delta, rest } = fields;
    let Then { first: usage, rest } = rest;
    let Then {
        first: version,
        rest: End,
    } = rest;
    FileVersion {
        delta,
        usage,
        version,
    }
}

impl Decode for FileVersion {
    ghost use Rattle.ae_schema.specs.Spelled.{file_version};
    ghost use Rattle.ae_schema.specs.Fits.{FitsFileVersion};
    ghost use Rattle.ae_schema.specs.SomeValues.{some_file_version};

    ghost spelled = { file_version };

    ghost Fits = { FitsFileVersion };

    fn of_tree(alloc: Global, tree: &Tree) -> Result<Option<FileVersion>, AllocError> {
        match read_structure::<FileVersionFields>(alloc, &FILE_VERSION_NAMES, tree)? {
            Some(fields) => Ok(Some(file_version_of(fields))),
            None => Ok(None),
        }
    }

    fn guess(alloc: Global, text: &mut Cursor) -> Result<Option<FileVersion>, AllocError> {
        match guess_structure::<FileVersionFields>(alloc, &FILE_VERSION_NAMES, text)? {
            Some(fields) => Ok(Some(file_version_of(fields))),
            None => Ok(None),
        }
    }

    ghost some_value = { some_file_version };
}

impl Encode for FileVersion {
    fn put(&self, out: &mut Vec<u8>) -> Result<(), AllocError> {
        put_structure(out, self)
    }
}

impl Row for FileVersion {
    fn put_fields(&self, out: &mut Vec<u8>) -> Result<(), AllocError> {
        put_both(out, b"delta", &self.delta, b"usage", &self.usage)?;
        put_field(out, b"version", &self.version)?;
        Ok(())
    }
}

// The names of its fields.
const FILE_ROW_NAMES: [&[u8]; 3] = [b"path", b"edit", b"past"];

type FileRowFields = Then<Path, Then<u64, Then<FileVersionList, End>>>;

// The row of these fields, where its edit is the length of its past.
fn row_of(fields: FileRowFields) -> Option<FileRow>
    ensures some { IfSome result (λ row. (row ≡ row_from fields) × (fields.rest.first ≡ length row.past)) }
    ensures only { fields.rest.first ≡ length fields.rest.rest.first → result ≡ Some (row_from fields) }
{
    let Then { first: path, rest } = fields;
    let Then { first: edit, rest } = rest;
    let Then {
        first: past,
        rest: End,
    } = rest;
    if edit == past.len() as u64 {
        Some(FileRow { path, past })
    } else {
        None
    }
}

impl Decode for FileRow {
    ghost use Rattle.ae_schema.specs.Spelled.{file_row};
    ghost use Rattle.ae_schema.specs.Fits.{FitsFile};
    ghost use Rattle.ae_schema.specs.SomeValues.{some_file};

    ghost spelled = { file_row };

    ghost Fits = { FitsFile };

    fn of_tree(alloc: Global, tree: &Tree) -> Result<Option<FileRow>, AllocError> {
        match read_structure::<FileRowFields>(alloc, &FILE_ROW_NAMES, tree)? {
            Some(fields) => Ok(row_of(fields)),
            None => Ok(None),
        }
    }

    fn guess(alloc: Global, text: &mut Cursor) -> Result<Option<FileRow>, AllocError> {
        match guess_structure::<FileRowFields>(alloc, &FILE_ROW_NAMES, text)? {
            Some(fields) => Ok(row_of(fields)),
            None => Ok(None),
        }
    }

    ghost some_value = { some_file };
}

impl Encode for FileRow {
    fn put(&self, out: &mut Vec<u8>) -> Result<(), AllocError> {
        put_structure(out, self)
    }
}

impl Row for FileRow {
    fn put_fields(&self, out: &mut Vec<u8>) -> Result<(), AllocError> {
        let edit = self.past.len() as u64;
        put_both(out, b"path", &self.path, b"edit", &edit)?;
        put_field(out, b"past", &self.past)?;
        Ok(())
    }
}

// The names of its fields.
const LOCK_NAMES: [&[u8]; 2] = [b"path", b"change"];

type LockFields = Then<Path, Then<ChangeNo, End>>;

fn lock_of(fields: LockFields) -> Lock
    ensures { result ≡ lock_from fields }
{
    let Then { first: path, rest } = fields;
    let Then {
        first: change,
        rest: End,
    } = rest;
    Lock { path, change }
}

impl Decode for Lock {
    ghost use Rattle.ae_schema.specs.Spelled.{lock};
    ghost use Rattle.ae_schema.specs.Fits.{FitsLock};
    ghost use Rattle.ae_schema.specs.SomeValues.{some_lock};

    ghost spelled = { lock };

    ghost Fits = { FitsLock };

    fn of_tree(alloc: Global, tree: &Tree) -> Result<Option<Lock>, AllocError> {
        match read_structure::<LockFields>(alloc, &LOCK_NAMES, tree)? {
            Some(fields) => Ok(Some(lock_of(fields))),
            None => Ok(None),
        }
    }

    fn guess(alloc: Global, text: &mut Cursor) -> Result<Option<Lock>, AllocError> {
        match guess_structure::<LockFields>(alloc, &LOCK_NAMES, text)? {
            Some(fields) => Ok(Some(lock_of(fields))),
            None => Ok(None),
        }
    }

    ghost some_value = { some_lock };
}

impl Encode for Lock {
    fn put(&self, out: &mut Vec<u8>) -> Result<(), AllocError> {
        put_structure(out, self)
    }
}

impl Row for Lock {
    fn put_fields(&self, out: &mut Vec<u8>) -> Result<(), AllocError> {
        put_both(out, b"path", &self.path, b"change", &self.change)?;
        Ok(())
    }
}

type FileTableFields = Then<Ascending<FileRow>, Then<Ascending<Lock>, End>>;

fn files_of(fields: FileTableFields) -> (FileRows, LockList)
    ensures value { result ≡ files_from fields }
    ensures ascend { FilesAscend result }
{
    let Then { first: files, rest } = fields;
    let Then {
        first: locks,
        rest: End,
    } = rest;
    (files.into_rows(), locks.into_rows())
}

// The names of its fields.
const FIELD_NAMES: [&[u8]; 2] = [b"files", b"locks"];

// The files and locks of which the bytes are any text.
fn read_any_text(alloc: Global, bytes: &[u8]) -> Result<(FileRows, LockList), SchemaError>
    ensures found { IfOk result (λ t. IsTextOf bytes.now (files_fields t)) }
    ensures fits { IfOk result FitsFiles }
    ensures only { (t : List FileRow × List Lock) → FitsFiles t → IsTextOf bytes.now (files_fields t) → IsAnswer t result }
    ensures field { (line : ℕ) → result ≡ Err (SchemaError.Field line) → IsBadLine FitsFiles files_fields bytes.now line }
    ensures only_field { (line : ℕ) → IsBadLine FitsFiles files_fields bytes.now line → IsRefusal line result }
{
    match read_record::<FileTableFields>(alloc, &FIELD_NAMES, bytes) {
        Ok(fields) => Ok(files_of(fields)),
        Err(error) => Err(error),
    }
}

// Whether the bytes are what is printed of these files and locks.
fn are_printed(
    alloc: Global,
    files: &[FileRow],
    locks: &[Lock],
    bytes: &[u8],
) -> Result<bool, AllocError>
    ensures text { IfOk result (λ same. IsTrue same → IsTextOf bytes.now (files_fields (files.now, locks.now))) }
    ensures fits { IfOk result (λ same. HoldsFiles (files.now, locks.now)) }
{
    let text = print_files(alloc, files, locks)?;
    Ok(text.as_slice() == bytes)
}

// The files and locks that are printed as these bytes.
fn read_printed(alloc: Global, bytes: &[u8]) -> Result<Option<(FileRows, LockList)>, AllocError>
    ensures found { IfOk result (λ read. IfSome read (λ t. IsTextOf bytes.now (files_fields t))) }
    ensures fits { IfOk result (λ read. IfSome read FitsFiles) }
{
    let Some(fields) = guess_record::<FileTableFields>(alloc, &FIELD_NAMES, bytes)? else {
        return Ok(None);
    };
    let (files, locks) = files_of(fields);
    if are_printed(alloc, files.as_slice(), locks.as_slice(), bytes)? {
        Ok(Some((files, locks)))
    } else {
        Ok(None)
    }
}

/// The files of a project and its locks, of which the bytes are a text.
pub fn read_files(alloc: Global, bytes: &[u8]) -> Result<(FileRows, LockList), SchemaError>
    // The bytes are a text of the fields of what is read.
    ensures found { IfOk result (λ t. IsTextOf bytes.now (files_fields t)) }
    // What is read keeps what its types can hold, and files and locks ascend by path.
    ensures fits { IfOk result FitsFiles }
    // A text of the fields of such files and locks is read as these.
    ensures only { (t : List FileRow × List Lock) → FitsFiles t → IsTextOf bytes.now (files_fields t) → IsAnswer t result }
    // A line is that of the first token or field that can't stand there.
    ensures field { (line : ℕ) → result ≡ Err (SchemaError.Field line) → IsBadLine FitsFiles files_fields bytes.now line }
    // Where a token or field can't stand, that line comes.
    ensures only_field { (line : ℕ) → IsBadLine FitsFiles files_fields bytes.now line → IsRefusal line result }
{
    match read_printed(alloc, bytes) {
        Ok(Some(files)) => Ok(files),
        Ok(None) => read_any_text(alloc, bytes),
        Err(_) => Err(SchemaError::Memory),
    }
}

// The lines of the file table.
fn put_files(out: &mut Vec<u8>, files: &[FileRow], locks: &[Lock]) -> Result<(), AllocError>
    ensures put { OnOk result (ArePut lines out.old.items out.new.items (files_fields (files.now, locks.now))) }
    ensures fits { OnOk result (HoldsFiles (files.now, locks.now)) }
{
    put_list_line(out, b"files", files)?;
    put_list_line(out, b"locks", locks)?;
    Ok(())
}

/// The text of `files`, of the files of a project and its locks.
pub fn print_files(alloc: Global, files: &[FileRow], locks: &[Lock]) -> Result<Vec<u8>, AllocError>
    // Each field in canonical form.
    ensures value { IfOk result (λ text. text.items ≡ fields_text (members_of (files_fields (files.now, locks.now)))) }
    // What is printed is a text of the same fields.
    ensures again { IfOk result (λ text. IsTextOf text.items (files_fields (files.now, locks.now))) }
    // What is printed keeps what its types can hold.
    ensures fits { OnOk result (HoldsFiles (files.now, locks.now)) }
{
    let mut out = Vec::new(alloc);
    put_files(&mut out, files, locks)?;
    Ok(out)
}

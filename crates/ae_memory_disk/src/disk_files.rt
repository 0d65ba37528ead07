// The files of a disk in memory.
ghost use Rattle.std.specs.Prelude.{◌≡◌, ◌≤◌, ◌<◌, ◌+◌, [], ◌++◌, IfOk, OnOk, OnErr, length, take, drop};
ghost use Rattle.std.specs.List.{position_or_len};
ghost use Rattle.std.specs.Str.{bytes_eq};
ghost use Rattle.ae_outside.specs.Image.{with_file};
ghost use Rattle.ae_memory_disk.specs.DiskFiles.{bytes_of};
ghost use Rattle.ae_memory_disk.specs.DiskLog.{overwritten, applied};

use crate::disk_log::Change;
use ae_base::Text;
use std::alloc::{AllocError, Global};
use std::marker::Model;

/// A file.
#[derive(Drop)]
pub struct File {
    pub name: Text,
    pub bytes: Text,
}

/// Files by names. A name that isn't there is an empty file's.
#[derive(Drop)]
pub struct Files {
    rows: Vec<File>,
}

impl Model for Files {
    ghost use Rattle.std.specs.Prelude.{List};
    ghost use Rattle.ae_memory_disk.specs.declared.disk_files.File.{File};

    ghost Value = { List File };

    ghost view = { λ a. a.rows.items };
}

// The place of the first file of this name, after the last one where there is none.
fn place(files: &[File], name: &[u8]) -> usize
    ensures place { result ≡ position_or_len (λ file. bytes_eq file.name name.now) files.now }
    ensures within { result ≤ length files.now }
{
    let mut at = 0;
    for file in files {
        if file.name.bytes() == name {
            return at;
        }
        at += 1;
    }
    at
}

// The bytes with some put over them, or after them.
fn overwrite(alloc: Global, old: &[u8], at: usize, bytes: &[u8]) -> Result<Text, AllocError>
    requires { at ≤ length old.now }
    ensures { IfOk result (λ text. text ≡ take at old.now ++ bytes.now ++ drop (at + length bytes.now) old.now) }
{
    let mut new = old[..at].to_vec(alloc)?;
    new.extend_from_slice(bytes)?;
    if bytes.len() < old.len() - at {
        new.extend_from_slice(&old[at + bytes.len()..])?;
    }
    Ok(Text::of(new))
}

// The first so many bytes.
fn shorten(alloc: Global, old: &[u8], len: u64) -> Result<Text, AllocError>
    ensures { IfOk result (λ text. text ≡ take len old.now) }
{
    let end = old.len().min(len as usize);
    Ok(Text::of(old[..end].to_vec(alloc)?))
}

impl Files {
    /// No files.
    pub fn new(alloc: Global) -> Files
        ensures { result ≡ [] }
    {
        Files {
            rows: Vec::new(alloc),
        }
    }

    /// A copy of them.
    pub fn copy(&self, alloc: Global) -> Result<Files, AllocError>
        ensures { IfOk result (λ files. files ≡ self.now) }
    {
        let mut rows = Vec::new(alloc);
        for file in &self.rows {
            let name = file.name.copy(alloc)?;
            let bytes = file.bytes.copy(alloc)?;
            rows.push(File { name, bytes })?;
        }
        Ok(Files { rows })
    }

    /// The bytes of the file of this name; none for an absent file.
    pub fn bytes_of(&self, name: &[u8]) -> &[u8]
        ensures { result.now ≡ bytes_of self.now name.now }
    {
        for file in &self.rows {
            if file.name.bytes() == name {
                return file.bytes.bytes();
            }
        }
        &[]
    }

    /// The file of this name gets these bytes.
    pub fn put(&mut self, alloc: Global, name: &[u8], bytes: Text) -> Result<(), AllocError>
        ensures ok { OnOk result (bytes_of self.new ≡ with_file name.now (λ _. bytes) (bytes_of self.old)) }
        ensures err { OnErr result (self.new ≡ self.old) }
    {
        let at = place(&self.rows, name);
        if at < self.rows.len() {
            self.rows[at].bytes = bytes;
            return Ok(());
        }
        let name = Text::of(name.to_vec(alloc)?);
        self.rows.push(File { name, bytes })?;
        Ok(())
    }

    // Bytes after the end are no write.
    /// Bytes are put into the file of this name from an offset on.
    pub fn write(
        &mut self,
        alloc: Global,
        name: &[u8],
        at: u64,
        bytes: &[u8],
    ) -> Result<(), AllocError>
        ensures ok { OnOk result (bytes_of self.new ≡ with_file name.now (overwritten at bytes.now) (bytes_of self.old)) }
        ensures err { OnErr result (self.new ≡ self.old) }
    {
        let old = self.bytes_of(name);
        if at as usize > old.len() {
            return Ok(());
        }
        let new = overwrite(alloc, old, at as usize, bytes)?;
        self.put(alloc, name, new)?;
        Ok(())
    }

    /// The file of this name is cut to a length, in bytes.
    pub fn cut(&mut self, alloc: Global, name: &[u8], len: u64) -> Result<(), AllocError>
        ensures ok { OnOk result (bytes_of self.new ≡ with_file name.now (take len) (bytes_of self.old)) }
        ensures err { OnErr result (self.new ≡ self.old) }
    {
        let new = shorten(alloc, self.bytes_of(name), len)?;
        self.put(alloc, name, new)?;
        Ok(())
    }

    /// Does one change.
    pub fn apply(&mut self, alloc: Global, change: &Change) -> Result<(), AllocError>
        ensures ok { OnOk result (bytes_of self.new ≡ applied change.now (bytes_of self.old)) }
        ensures err { OnErr result (self.new ≡ self.old) }
    {
        match change {
            Change::Write { name, at, bytes } => self.write(
                alloc,
                name.bytes(),
                *at,
                bytes.bytes(),
            ),
            Change::Cut { name, len } => self.cut(alloc, name.bytes(), *len),
            Change::Sync { name: _ } => Ok(()),
        }
    }
}

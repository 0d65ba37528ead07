// The rows of files of a site in memory: the last row of a file counts.
ghost use Rattle.std.specs.Prelude.{◌≡◌, ℕ, List, Some, None, option_copied, IfOk, IfSome, OnOk};
ghost use Rattle.ae_base.specs.Bytes.{AreBytes};
ghost use Rattle.ae_outside.specs.Trees.{no_files, with_file, with_rows};
ghost use Rattle.ae_outside.specs.Dirs.{dir_eq};
ghost use Rattle.ae_memory.specs.FileRows.{is_at, tree_of, with_row, ElsewhereSame};
ghost use Rattle.ae_memory.specs.Scripts.{without_paths, run_over};

use crate::site_run::MemRun;
use ae_base::{Path, Snapshot, Text};
use ae_outside::Dir;
use std::alloc::{AllocError, Global};

// A file of a directory.
#[derive(Drop)]
pub(crate) struct FileRow {
    pub dir: Dir,
    pub path: Path,
    pub bytes: Text,
}

fn is_dir(a: &Dir, b: &Dir) -> bool
    ensures { result ≡ dir_eq a.now b.now }
{
    match (a, b) {
        (Dir::Here, Dir::Here) => true,
        (Dir::Develop(n), Dir::Develop(m)) => n.number() == m.number(),
        (Dir::Integrate(n), Dir::Integrate(m)) => n.number() == m.number(),
        (Dir::Base(n), Dir::Base(m)) => n.number() == m.number(),
        _ => false,
    }
}

fn is_file(row: &FileRow, dir: &Dir, path: &Path) -> bool
    ensures { result ≡ is_at dir.now path.now row.now }
{
    is_dir(&row.dir, dir) && row.path == *path
}

// The bytes of the last row of this file.
pub(crate) fn bytes_of<'a>(files: &'a [FileRow], dir: &Dir, path: &Path) -> Option<&'a Text>
    ensures { option_copied result ≡ tree_of files.now dir.now path.now }
{
    let mut found = None;
    for file in files {
        if is_file(file, dir, path) {
            found = Some(&file.bytes);
        }
    }
    found
}

// A law: what the files hold are bytes.
pub(crate) fn note_file_bytes(files: &[FileRow])
    ensures { (dir : Dir) (path : List ℕ) → IfSome (tree_of files.now dir path) AreBytes }
{
    for file in files {
        let _bytes = file.bytes.bytes();
    }
}

// Takes away all rows of the file.
pub(crate) fn drop_file(files: &mut Vec<FileRow>, dir: &Dir, path: &Path)
    ensures here { tree_of files.new.items dir.now ≡ with_file path.now None (tree_of files.old.items dir.now) }
    ensures others { ElsewhereSame dir.now (tree_of files.old.items) (tree_of files.new.items) }
{
    files.retain(|row| !is_file(row, dir, path));
}

// Takes away all files of the directory.
pub(crate) fn drop_dir(files: &mut Vec<FileRow>, dir: &Dir)
    ensures here { tree_of files.new.items dir.now ≡ no_files }
    ensures others { ElsewhereSame dir.now (tree_of files.old.items) (tree_of files.new.items) }
{
    files.retain(|row| !is_dir(&row.dir, dir));
}

// Puts the file in place of its rows. Where it fails the file may be gone.
pub(crate) fn put_file(
    alloc: Global,
    files: &mut Vec<FileRow>,
    dir: &Dir,
    path: &Path,
    bytes: &[u8],
) -> Result<(), AllocError>
    ensures here { OnOk result (tree_of files.new.items dir.now ≡ with_file path.now (Some bytes.now) (tree_of files.old.items dir.now)) }
    ensures others { ElsewhereSame dir.now (tree_of files.old.items) (tree_of files.new.items) }
{
    let row = FileRow {
        dir: *dir,
        path: path.copy(alloc)?,
        bytes: Text::of(bytes.to_vec(alloc)?),
    };
    drop_file(files, dir, path);
    files.push(row)?;
    Ok(())
}

fn put_or_drop(
    alloc: Global,
    files: &mut Vec<FileRow>,
    dir: &Dir,
    path: &Path,
    bytes: &Option<Text>,
) -> Result<(), AllocError>
    ensures here { OnOk result (tree_of files.new.items dir.now ≡ with_file path.now bytes.now (tree_of files.old.items dir.now)) }
    ensures others { ElsewhereSame dir.now (tree_of files.old.items) (tree_of files.new.items) }
{
    match bytes {
        Some(bytes) => put_file(alloc, files, dir, path, bytes.bytes()),
        None => {
            drop_file(files, dir, path);
            Ok(())
        }
    }
}

fn put_rows(
    alloc: Global,
    files: &mut Vec<FileRow>,
    dir: &Dir,
    rows: &[(Path, Option<Text>)],
) -> Result<(), AllocError>
    ensures here { OnOk result (tree_of files.new.items dir.now ≡ with_rows rows.now (tree_of files.old.items dir.now)) }
    ensures others { ElsewhereSame dir.now (tree_of files.old.items) (tree_of files.new.items) }
{
    for row in rows {
        put_or_drop(alloc, files, dir, &row.0, &row.1)?;
    }
    Ok(())
}

fn drop_files(files: &mut Vec<FileRow>, dir: &Dir, paths: &[Path])
    ensures here { tree_of files.new.items dir.now ≡ without_paths paths.now (tree_of files.old.items dir.now) }
    ensures others { ElsewhereSame dir.now (tree_of files.old.items) (tree_of files.new.items) }
{
    for path in paths {
        drop_file(files, dir, path);
    }
}

// What a run of the script does to its directory.
pub(crate) fn run_over_files(
    alloc: Global,
    files: &mut Vec<FileRow>,
    dir: &Dir,
    run: &MemRun,
) -> Result<(), AllocError>
    ensures here { OnOk result (tree_of files.new.items dir.now ≡ run_over run.now (tree_of files.old.items dir.now)) }
    ensures others { ElsewhereSame dir.now (tree_of files.old.items) (tree_of files.new.items) }
{
    for snapshot in run.writes.as_slice() {
        put_rows(alloc, files, dir, snapshot.as_slice())?;
    }
    drop_files(files, dir, run.removes.as_slice());
    Ok(())
}

// Puts the file's row, where it is of the directory.
fn note_file(
    alloc: Global,
    snapshot: &mut Snapshot,
    dir: &Dir,
    file: &FileRow,
) -> Result<(), AllocError>
    ensures { OnOk result (with_rows snapshot.new no_files ≡ with_row dir.now file.now (with_rows snapshot.old no_files)) }
{
    if is_dir(&file.dir, dir) {
        snapshot.put(file.path.copy(alloc)?, Some(file.bytes.copy(alloc)?))?;
    }
    Ok(())
}

// The files of a directory.
pub(crate) fn snapshot_of(
    alloc: Global,
    files: &[FileRow],
    dir: &Dir,
) -> Result<Snapshot, AllocError>
    ensures { IfOk result (λ snapshot. with_rows snapshot no_files ≡ tree_of files.now dir.now) }
{
    let mut snapshot = Snapshot::new(alloc);
    for file in files {
        note_file(alloc, &mut snapshot, dir, file)?;
    }
    Ok(snapshot)
}

// The files of all directories.
pub(crate) fn copy_of(alloc: Global, files: &[FileRow]) -> Result<Vec<FileRow>, AllocError>
    ensures { IfOk result (λ copy. copy.items ≡ files.now) }
{
    let mut copy = Vec::new(alloc);
    for file in files {
        copy.push(FileRow {
            dir: file.dir,
            path: file.path.copy(alloc)?,
            bytes: file.bytes.copy(alloc)?,
        })?;
    }
    Ok(copy)
}

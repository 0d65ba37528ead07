// Directories that are filled and refreshed.
ghost use Rattle.std.specs.Prelude.{◌≡◌, Some, OnOk, IsErrOf};
ghost use Rattle.ae_outside.specs.Causes.{Counted, HasCause};
ghost use Rattle.ae_outside.specs.Trees.{no_files, with_file, with_rows};
ghost use Rattle.ae_outside.specs.Site.{ChangesOnly};
ghost use Rattle.ae_evidence.specs.Directories.{with_some_file, with_some_files};
ghost use Rattle.ae_dirs.specs.Parts.{AreMadeInPart, ArePutInPart};

use crate::DirsError;
use crate::reading::holds;
use ae_base::{Path, Snapshot, Text};
use ae_outside::{Content, Dir, Failed, Site};
use std::alloc::Global;

// The path gets these bytes, or is made absent.
fn put<S: Site>(site: &mut S, dir: &Dir, path: &Path, bytes: &Option<Text>) -> Result<(), Failed>
    ensures put { OnOk result (S.tells → (S.state site.new).trees dir.now ≡ with_file path.now bytes.now ((S.state site.old).trees dir.now)) }
    ensures only { S.tells → ChangesOnly dir.now (S.state site.old) (S.state site.new) }
    ensures cause { HasCause (S.faults site.old) (S.faults site.new) result }
{
    match bytes {
        Some(bytes) => site.write(*dir, path, bytes.bytes()),
        None => site.remove(*dir, path),
    }
}

// The rows are put over the directory, one after another.
fn put_rows<S: Site>(site: &mut S, dir: &Dir, rows: &[(Path, Option<Text>)]) -> Result<(), Failed>
    ensures put { OnOk result (S.tells → (S.state site.new).trees dir.now ≡ with_rows rows.now ((S.state site.old).trees dir.now)) }
    ensures only { S.tells → ChangesOnly dir.now (S.state site.old) (S.state site.new) }
    ensures cause { HasCause (S.faults site.old) (S.faults site.new) result }
{
    for row in rows {
        put(site, dir, &row.0, &row.1)?;
    }
    Ok(())
}

/// Empties the directory and puts the rows there.
pub(crate) fn fill_rows<S: Site>(
    site: &mut S,
    dir: &Dir,
    rows: &[(Path, Option<Text>)],
) -> Result<(), Failed>
    ensures filled { OnOk result (S.tells → (S.state site.new).trees dir.now ≡ with_rows rows.now no_files) }
    ensures only { S.tells → ChangesOnly dir.now (S.state site.old) (S.state site.new) }
    ensures cause { HasCause (S.faults site.old) (S.faults site.new) result }
{
    site.clear(*dir)?;
    put_rows(site, dir, rows)
}

/// Empties the directory and writes the tree.
pub fn fill<S: Site>(site: &mut S, dir: Dir, tree: &Snapshot) -> Result<(), Failed>
    ensures filled { OnOk result (S.tells → (S.state site.new).trees dir ≡ with_rows tree.now no_files) }
    ensures only { S.tells → ChangesOnly dir (S.state site.old) (S.state site.new) }
    ensures cause { HasCause (S.faults site.old) (S.faults site.new) result }
{
    let dir = &dir;
    fill_rows(site, dir, tree.as_slice())
}

// The same of one path, where it isn't so already.
fn put_again<S: Site>(
    alloc: Global,
    site: &mut S,
    dir: &Dir,
    path: &Path,
    bytes: &Option<Text>,
) -> Result<(), DirsError>
    ensures put { OnOk result (S.tells → (S.state site.new).trees dir.now ≡ with_file path.now bytes.now ((S.state site.old).trees dir.now)) }
    ensures only { S.tells → ChangesOnly dir.now (S.state site.old) (S.state site.new) }
    ensures memory { IsErrOf result DirsError.Memory → S.tells → S.state site.new ≡ S.state site.old }
    ensures cause { Counted (S.faults site.old) (S.faults site.new) (IsErrOf result DirsError.SiteFault) }
{
    let limit = match bytes {
        Some(bytes) => bytes.bytes().len(),
        None => 0,
    };
    let content = site.read(alloc, *dir, path, limit)?;
    if holds(&content, bytes) {
        return Ok(());
    }
    put(site, dir, path, bytes)?;
    Ok(())
}

/// Each path of the rows gets its bytes or is made absent, where it isn't so already. Other files stay.
pub(crate) fn refresh_rows<S: Site>(
    alloc: Global,
    site: &mut S,
    dir: &Dir,
    rows: &[(Path, Option<Text>)],
) -> Result<(), DirsError>
    ensures put { OnOk result (S.tells → (S.state site.new).trees dir.now ≡ with_rows rows.now ((S.state site.old).trees dir.now)) }
    ensures only { S.tells → ChangesOnly dir.now (S.state site.old) (S.state site.new) }
    // Where it isn't that the directory failed, each path is as it was, or as it was to be made.
    ensures part { S.tells → (IsErrOf result DirsError.SiteFault → ⊥) →
        ArePutInPart rows.now ((S.state site.old).trees dir.now) ((S.state site.new).trees dir.now) }
    ensures cause { Counted (S.faults site.old) (S.faults site.new) (IsErrOf result DirsError.SiteFault) }
{
    for row in rows {
        put_again(alloc, site, dir, &row.0, &row.1)?;
    }
    Ok(())
}

/// Makes each path of the tree hold its bytes, or be absent. Other files stay.
pub fn refresh<S: Site>(
    alloc: Global,
    site: &mut S,
    dir: Dir,
    tree: &Snapshot,
) -> Result<(), DirsError>
    ensures put { OnOk result (S.tells → (S.state site.new).trees dir ≡ with_rows tree.now ((S.state site.old).trees dir)) }
    ensures only { S.tells → ChangesOnly dir (S.state site.old) (S.state site.new) }
    // Where it isn't that the directory failed, each path is as it was, or as it was to be made.
    ensures part { S.tells → (IsErrOf result DirsError.SiteFault → ⊥) →
        ArePutInPart tree.now ((S.state site.old).trees dir) ((S.state site.new).trees dir) }
    ensures cause { Counted (S.faults site.old) (S.faults site.new) (IsErrOf result DirsError.SiteFault) }
{
    let dir = &dir;
    refresh_rows(alloc, site, dir, tree.as_slice())
}

// The path gets an empty file, where it has none.
fn make_file<S: Site>(alloc: Global, site: &mut S, dir: &Dir, path: &Path) -> Result<(), DirsError>
    ensures made { OnOk result (S.tells → (S.state site.new).trees dir.now ≡ with_some_file path.now ((S.state site.old).trees dir.now)) }
    ensures only { S.tells → ChangesOnly dir.now (S.state site.old) (S.state site.new) }
    ensures memory { IsErrOf result DirsError.Memory → S.tells → S.state site.new ≡ S.state site.old }
    ensures cause { Counted (S.faults site.old) (S.faults site.new) (IsErrOf result DirsError.SiteFault) }
{
    match site.read(alloc, *dir, path, 0)? {
        Content::Absent => {
            site.write(*dir, path, &[])?;
            Ok(())
        }
        _ => Ok(()),
    }
}

/// Each path gets an empty file, where it has none.
pub(crate) fn make_files<S: Site>(
    alloc: Global,
    site: &mut S,
    dir: &Dir,
    paths: &[Path],
) -> Result<(), DirsError>
    ensures made { OnOk result (S.tells → (S.state site.new).trees dir.now ≡ with_some_files paths.now ((S.state site.old).trees dir.now)) }
    ensures only { S.tells → ChangesOnly dir.now (S.state site.old) (S.state site.new) }
    // Where it isn't that the directory failed, each path is as it was, or as it was to be made.
    ensures part { S.tells → (IsErrOf result DirsError.SiteFault → ⊥) →
        AreMadeInPart paths.now ((S.state site.old).trees dir.now) ((S.state site.new).trees dir.now) }
    ensures cause { Counted (S.faults site.old) (S.faults site.new) (IsErrOf result DirsError.SiteFault) }
{
    for path in paths {
        make_file(alloc, site, dir, path)?;
    }
    Ok(())
}

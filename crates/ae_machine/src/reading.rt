// What a command read of the files, and the trees that it makes of them.
ghost use Rattle.std.specs.Prelude.{◌≡◌, ◌++◌, ◌∷◌, [], ℕ, List, Some, map, IfOk, OnOk, option_copied};
ghost use Rattle.std.specs.Str.{bytes_eq};
ghost use Rattle.ae_types.specs.Found.{change_at, file_path};
ghost use Rattle.ae_types.specs.Ordered.{Ascends, itself};
ghost use Rattle.ae_types.specs.Trees.{candidate_of, paths_of};
ghost use Rattle.ae_base.specs.Rows.{text_cmp};
ghost use Rattle.ae_words.specs.declared.command.Command.{Command};
ghost use Rattle.ae_machine.specs.Call.{Placing, call_of, given_of};
ghost use Rattle.ae_machine.specs.Commands.{config_seen};
ghost use Rattle.ae_machine.specs.Freezing.{content_is_good, first_content_refused};
ghost use Rattle.ae_machine.specs.Runs.{subject};
ghost use Rattle.ae_evidence.specs.Directories.{bytes_of};
ghost use Rattle.ae_files.specs.InTree.{row_at};
ghost use Rattle.ae_machine.specs.Sight.{bytes_read, config_path, kept, paths_read, read_at};

use crate::View;
use crate::runs::is_integrating;
use crate::seen::Seen;
use ae_base::{Action, ChangeNo, Path, PathList, Refusal, Snapshot, Text, Which};
use ae_evidence::{digest, digest_rows};
use ae_files::candidate;
use ae_outside::Content;
use ae_types::{Change, ChangeFile, State, TreeRow, TreeRows};
use std::alloc::{AllocError, Global};

/// A copy of the text, where there is one.
pub(crate) fn text_copy(alloc: Global, text: Option<&Text>) -> Result<Option<Text>, AllocError>
    ensures { IfOk result (λ copy. copy ≡ option_copied text.entry) }
{
    match text {
        Some(text) => Ok(Some(text.copy(alloc)?)),
        None => Ok(None),
    }
}

/// Adds a path with its bytes, or with none.
pub(crate) fn push_row(
    alloc: Global,
    rows: &mut Vec<(Path, Option<Text>)>,
    path: &Path,
    bytes: Option<&Text>,
) -> Result<(), AllocError>
    ensures { OnOk result (rows.new.items ≡ rows.old.items ++ ((path.now, option_copied bytes.entry) ∷ [])) }
{
    let bytes = text_copy(alloc, bytes)?;
    rows.push((path.copy(alloc)?, bytes))?;
    Ok(())
}

// ---- the paths that are read

// Adds the path of a file that isn't removed.
fn push_kept(alloc: Global, paths: &mut PathList, file: &ChangeFile) -> Result<(), AllocError>
    ensures { OnOk result (paths.new ≡ paths.old ++ kept (file.now ∷ [])) }
{
    match file.action {
        Action::Remove => Ok(()),
        _ => paths.push(file.path.copy(alloc)?),
    }
}

// The paths of files that aren't removed.
fn kept_paths(alloc: Global, files: &[ChangeFile]) -> Result<PathList, AllocError>
    requires { Ascends text_cmp file_path files.now }
    ensures paths { IfOk result (λ paths. paths ≡ kept files.now) }
    ensures ascend { IfOk result (λ paths. Ascends text_cmp itself paths) }
{
    let mut paths = PathList::new(alloc);
    for file in files {
        push_kept(alloc, &mut paths, file)?;
    }
    Ok(paths)
}

// The paths of a tree.
fn tree_paths(alloc: Global, rows: &TreeRows) -> Result<PathList, AllocError>
    ensures paths { IfOk result (λ paths. paths ≡ paths_of rows.now) }
    ensures ascend { IfOk result (λ paths. Ascends text_cmp itself paths) }
{
    let mut paths = PathList::new(alloc);
    for row in rows.as_slice() {
        paths.push(row.path.copy(alloc)?)?;
    }
    Ok(paths)
}

/// What the baseline would be after the change of this number.
pub(crate) fn candidate_tree(
    alloc: Global,
    state: &State,
    number: ChangeNo,
    change: &Change,
) -> Result<TreeRows, AllocError>
    requires named { change_at state.now number ≡ Some change.now }
    ensures { IfOk result (λ rows. rows ≡ candidate_of state.now change.now) }
{
    candidate(alloc, state, number)
}

/// The paths whose files are read: in development those that the change keeps, in integration those of its candidate.
pub(crate) fn paths_read(
    alloc: Global,
    state: &State,
    number: ChangeNo,
    change: &Change,
) -> Result<PathList, AllocError>
    requires named { change_at state.now number ≡ Some change.now }
    ensures paths { (command : Command) (who : List ℕ) → IfOk result (λ paths. paths ≡ paths_read (call_of state.now command who) change.now) }
    ensures ascend { IfOk result (λ paths. Ascends text_cmp itself paths) }
{
    state.note_sound();
    if is_integrating(change.phase) {
        let tree = candidate_tree(alloc, state, number, change)?;
        tree_paths(alloc, &tree)
    } else {
        kept_paths(alloc, change.files.as_slice())
    }
}

// ---- whether they are as asked

// Why what was read at a path is refused.
fn content_refused(alloc: Global, seen: &Seen, path: &Path) -> Result<Option<Refusal>, AllocError>
    ensures { IfOk result (λ refusal. refusal ≡ content_is_good path.now (read_at seen.now.view.now path.now)) }
{
    match seen.row(path.bytes()) {
        Some((_, Content::Bytes(_))) => Ok(None),
        Some((_, Content::TooLong)) => Ok(Some(Refusal::Limit(
            Which::FileBytes,
            Which::FileBytes.most(),
        ))),
        Some((_, Content::Absent)) | None => Ok(Some(Refusal::FileMissing(path.copy(alloc)?))),
    }
}

/// Why the files at these paths are refused: the first that is absent or too long.
pub(crate) fn contents_refused(
    alloc: Global,
    view: &View,
    paths: &[Path],
) -> Result<Option<Refusal>, AllocError>
    ensures { IfOk result (λ refusal. refusal ≡ first_content_refused view.now paths.now) }
{
    let seen = Seen::of(view);
    for path in paths {
        if let Some(refusal) = content_refused(alloc, &seen, path)? {
            return Ok(Some(refusal));
        }
    }
    Ok(None)
}

// ---- trees

/// What was read of the files at these paths.
pub(crate) fn tree_read(alloc: Global, view: &View, paths: &[Path]) -> Result<Snapshot, AllocError>
    requires { Ascends text_cmp itself paths.now }
    ensures { IfOk result (λ tree. tree ≡ map (λ path. (path, bytes_of (read_at view.now path))) paths.now) }
{
    let seen = Seen::of(view);
    let mut rows = Vec::new(alloc);
    for path in paths {
        push_row(alloc, &mut rows, path, seen.bytes_at(path.bytes()))?;
    }
    Ok(Snapshot::of(rows))
}

// The bytes that were read of a file, none where the change removes it.
fn bytes_read<'a>(seen: &Seen<'a>, file: &ChangeFile) -> Option<&'a Text>
    ensures { option_copied result ≡ bytes_read seen.now.view.now file.now }
{
    match file.action {
        Action::Remove => None,
        _ => seen.bytes_at(file.path.bytes()),
    }
}

/// The change's files with what was read of them, the removed ones too.
pub(crate) fn change_tree(
    alloc: Global,
    view: &View,
    files: &[ChangeFile],
) -> Result<Snapshot, AllocError>
    requires { Ascends text_cmp file_path files.now }
    ensures { IfOk result (λ tree. tree ≡ map (λ (file : ChangeFile). (file.path, bytes_read view.now file)) files.now) }
{
    let seen = Seen::of(view);
    let mut rows = Vec::new(alloc);
    for file in files {
        push_row(alloc, &mut rows, &file.path, bytes_read(&seen, file))?;
    }
    Ok(Snapshot::of(rows))
}

/// The digest of what is tried: of the change's files as they were read, and in integration of the candidate.
pub(crate) fn subject(
    alloc: Global,
    state: &State,
    number: ChangeNo,
    change: &Change,
    view: &View,
) -> Result<[u8; 32], AllocError>
    requires named { change_at state.now number ≡ Some change.now }
    ensures { (places : Placing) (bytes : ℕ → List ℕ) (command : Command) (who : List ℕ) (when : ℕ) →
        IfOk result (λ made. made ≡ subject (given_of places state.now bytes command who when view.now) change.now) }
{
    state.note_sound();
    if is_integrating(change.phase) {
        let tree = candidate_tree(alloc, state, number, change)?;
        Ok(digest_rows(&tree))
    } else {
        let tree = change_tree(alloc, view, change.files.as_slice())?;
        Ok(digest(&tree))
    }
}

// ---- aegis.conf

fn is_config(row: &TreeRow) -> bool
    ensures { result ≡ bytes_eq config_path row.now.path }
{
    b"aegis.conf".as_slice() == row.path.bytes()
}

// The aegis.conf of a tree.
fn config_in(rows: &[TreeRow]) -> Option<&TreeRow>
    ensures { option_copied result ≡ row_at rows.now config_path }
{
    rows.iter().find(|row| is_config(row))
}

/// The bytes of aegis.conf that are seen: in integration only where the candidate has that file.
pub(crate) fn config_seen<'a>(
    alloc: Global,
    state: &State,
    number: ChangeNo,
    change: &Change,
    view: &'a View,
) -> Result<Option<&'a Text>, AllocError>
    requires named { change_at state.now number ≡ Some change.now }
    ensures { IfOk result (λ bytes. option_copied bytes ≡ config_seen state.now change.now view.now) }
{
    if is_integrating(change.phase) {
        let tree = candidate_tree(alloc, state, number, change)?;
        if config_in(tree.as_slice()).is_none() {
            return Ok(None);
        }
    }
    Ok(Seen::of(view).bytes_at(b"aegis.conf"))
}

// The files that a command gives its change or takes away, path by path, each as if those before it were done.
ghost use Rattle.std.specs.Prelude.{◌≡◌, ◌≤◌, ◌&&◌, ◌∷◌, [], true, None, Some, map, filter, length, nat_le, IfOk, OnOk};
ghost use Rattle.std.specs.Option.{is_none, option_map};
ghost use Rattle.ae_base.specs.declared.refusal.Refusal.TheVariants.{FileInChange};
ghost use Rattle.ae_policy.specs.Making.{IsPermission};
ghost use Rattle.ae_types.specs.declared.file_table.FileVersion.{FileVersion};
ghost use Rattle.ae_types.specs.Found.{file_path, file_in};
ghost use Rattle.ae_types.specs.Ordered.{Ascends};
ghost use Rattle.ae_types.specs.Trees.{baseline_of, tree_of};
ghost use Rattle.ae_base.specs.Rows.{text_cmp};
ghost use Rattle.ae_log.specs.After.{new_file};
ghost use Rattle.ae_machine.specs.declared.verdict.Verdict.TheVariants.{Accept};
ghost use Rattle.ae_machine.specs.Call.{unless};
ghost use Rattle.ae_evidence.specs.Needs.{usage_of};
ghost use Rattle.ae_machine.specs.Filing.{is_of_files, asked_before, are_clear, are_few, asked_after};
ghost use Rattle.ae_machine.specs.PathClash.{IsClearBut, asks_for_clashes};
ghost use Rattle.ae_machine.specs.Paths.{asked_of_path, edit_named, file_made, files_then, files_with, in_baseline, in_change_so, in_trees, is_in, is_in_baseline, not_in_baseline, not_in_change, not_in_change_or_overwritten, path_event, path_refused, paths_are_right, takes_away, tree_named, usage_in_baseline, usage_of_new};
ghost use Rattle.ae_machine.specs.Refused.{Answers, UnlessMemory};
ghost use Rattle.ae_files.specs.InTree.{row_at};
ghost use Rattle.ae_log.specs.Maker.{event_by};
ghost use Rattle.ae_machine.specs.Verdict.{maker_by};

use crate::Verdict;
use crate::call::Call;
use crate::events::push_event;
use crate::path_clash::stay_clear;
use crate::refused::Refused;
use ae_base::limits::MOST_CHANGE_FILES;
use ae_base::{Action, Delta, Path, Refusal, Usage, Which};
use ae_files::edit;
use ae_log::{EventKind, EventList, put_file, take_file};
use ae_types::{Change, ChangeFile, FileVersion, State, TryCopy, entry_at, file_in};
use ae_words::Function;
use std::alloc::{AllocError, Global};

// The usage of the path's file at a delta, where it is there.
fn usage_at(state: &State, delta: usize, path: &Path) -> Option<Usage>
    ensures { result ≡ option_map usage_of (row_at (tree_of state.now delta) path.now) }
{
    state.note_sound();
    let row = state.row(path)?;
    let entry = entry_at(row.past.as_slice(), delta)?;
    if entry.version.is_some() {
        Some(entry.usage)
    } else {
        None
    }
}

fn is_in_tree(state: &State, delta: usize, path: &Path) -> bool
    ensures { result ≡ is_in (tree_of state.now delta) path.now }
{
    usage_at(state, delta, path).is_some()
}

/// Whether the path is in the baseline.
pub(crate) fn is_in_baseline(state: &State, path: &Path) -> bool
    ensures { result ≡ is_in (baseline_of state.now) path.now }
{
    is_in_tree(state, state.project().deltas.len(), path)
}

// The usage that the path has in the baseline.
fn usage_in_baseline(call: &Call, path: &Path) -> Usage
    ensures { result ≡ usage_in_baseline call.now path.now }
{
    let last = call.state().project().deltas.len();
    match usage_at(call.state(), last, path) {
        Some(usage) => usage,
        None => Usage::Source,
    }
}

fn usage_of_new(path: &Path) -> Usage
    ensures { result ≡ usage_of_new path.now }
{
    if path.bytes() == b"aegis.conf".as_slice() {
        Usage::Config
    } else {
        Usage::Source
    }
}

// How many entries there are up to a delta.
fn entries_up_to(past: &[FileVersion], delta: Delta) -> usize
    ensures count { result ≡ length (filter (λ (entry : FileVersion). nat_le entry.delta delta) past.now) }
    ensures few { result ≤ length past.now }
{
    let mut count = 0;
    for entry in past {
        if entry.delta.number() <= delta.number() {
            count += 1;
        }
    }
    count
}

// The path's edit at the delta that is named, and its edit now where none is.
fn edit_named(state: &State, delta: Option<Delta>, path: &Path) -> u32
    ensures { result ≡ edit_named state.now delta path.now }
{
    let now = edit(state, path);
    match (state.row(path), delta) {
        (Some(row), Some(delta)) => entries_up_to(row.past.as_slice(), delta) as u32,
        _ => now,
    }
}

fn some_file(
    alloc: Global,
    path: &Path,
    action: Action,
    usage: Usage,
    origin: u32,
) -> Result<Option<ChangeFile>, AllocError>
    ensures { IfOk result (λ file. file ≡ Some (new_file path.now action usage origin)) }
{
    Ok(Some(ChangeFile {
        path: path.copy(alloc)?,
        action,
        usage,
        origin,
        frozen: None,
    }))
}

// The file that the function makes of a path, and none where it takes one away.
fn file_made(alloc: Global, call: &Call, path: &Path) -> Result<Option<ChangeFile>, AllocError>
    requires { is_of_files call.now.command.function ≡ true }
    ensures { IfOk result (λ made. made ≡ file_made call.now.command.function call.now path.now) }
{
    match call.command().function {
        Function::CopyFile => {
            let usage = usage_in_baseline(call, path);
            let origin = edit_named(call.state(), call.command().delta, path);
            some_file(alloc, path, Action::Modify, usage, origin)
        }
        Function::NewFile => {
            let usage = usage_of_new(path);
            some_file(alloc, path, Action::Create, usage, edit(call.state(), path))
        }
        Function::NewTest => {
            let origin = edit(call.state(), path);
            some_file(alloc, path, Action::Create, Usage::Test, origin)
        }
        Function::RemoveFile => {
            let usage = usage_in_baseline(call, path);
            some_file(alloc, path, Action::Remove, usage, edit(call.state(), path))
        }
        _ => Ok(None),
    }
}

// Puts the file that is made in its place, or takes the path's file out.
fn set_file(
    files: &mut Vec<ChangeFile>,
    path: &Path,
    made: Option<ChangeFile>,
) -> Result<(), AllocError>
    requires { Ascends text_cmp file_path files.old.items }
    ensures { OnOk result (files.new.items ≡ files_with path.now made files.old.items) }
{
    match made {
        Some(file) => put_file(files, file),
        None => {
            take_file(files, path);
            Ok(())
        }
    }
}

// Whether the function takes such a file away.
fn takes_away(function: Function, file: &ChangeFile) -> bool
    ensures { result ≡ takes_away function file.now }
{
    match function {
        Function::CopyFileUndo => file.action == Action::Modify,
        Function::RemoveFileUndo => file.action == Action::Remove,
        Function::NewTestUndo => file.action == Action::Create && file.usage == Usage::Test,
        Function::NewFileUndo => file.action == Action::Create && file.usage != Usage::Test,
        _ => false,
    }
}

// The change has a file of the path that the function takes away.
fn in_change_so(
    alloc: Global,
    call: &Call,
    files: &[ChangeFile],
    path: &Path,
) -> Result<(), Refused>
    requires { Ascends text_cmp file_path files.now }
    ensures { Answers (in_change_so call.now files.now path.now) result }
{
    match file_in(files, path.bytes()) {
        Some(file) if takes_away(call.command().function, file) => Ok(()),
        _ => Err(Refused::Because(Refusal::FileNotInChange(path.copy(alloc)?))),
    }
}

// The path isn't in the change.
fn not_in_change(alloc: Global, files: &[ChangeFile], path: &Path) -> Result<(), Refused>
    requires { Ascends text_cmp file_path files.now }
    ensures { Answers (unless (is_none (file_in files.now path.now)) (FileInChange path.now)) result }
{
    if file_in(files, path.bytes()).is_none() {
        return Ok(());
    }
    Err(Refused::Because(Refusal::FileInChange(path.copy(alloc)?)))
}

// Whether the path is in the baseline, and in the tree of the delta that is named.
fn is_in_trees(call: &Call, path: &Path) -> bool
    ensures { result ≡ is_in_baseline call.now path.now && is_in (tree_named call.now.stands call.now.command.delta) path.now }
{
    let state = call.state();
    match call.command().delta {
        Some(delta) => {
            is_in_baseline(state, path) && is_in_tree(state, usize::from(delta.number()), path)
        }
        None => is_in_baseline(state, path),
    }
}

// The path may be copied into the change.
fn may_be_copied(
    alloc: Global,
    call: &Call,
    files: &[ChangeFile],
    path: &Path,
) -> Result<(), Refused>
    requires { Ascends text_cmp file_path files.now }
    ensures { Answers (path_refused (in_trees ∷ not_in_change_or_overwritten ∷ []) call.now files.now path.now) result }
{
    if !is_in_trees(call, path) {
        return Err(Refused::Because(Refusal::FileNotInProject(path.copy(alloc)?)));
    }
    if call.command().overwriting {
        return Ok(());
    }
    not_in_change(alloc, files, path)
}

// A new file of the path may be made.
fn may_be_made(alloc: Global, call: &Call, files: &[ChangeFile], path: &Path) -> Result<(), Refused>
    requires { Ascends text_cmp file_path files.now }
    ensures { Answers (path_refused (not_in_change ∷ not_in_baseline ∷ []) call.now files.now path.now) result }
{
    not_in_change(alloc, files, path)?;
    if is_in_baseline(call.state(), path) {
        return Err(Refused::Because(Refusal::FileInProject(path.copy(alloc)?)));
    }
    Ok(())
}

// The path may be removed.
fn may_be_removed(
    alloc: Global,
    call: &Call,
    files: &[ChangeFile],
    path: &Path,
) -> Result<(), Refused>
    requires { Ascends text_cmp file_path files.now }
    ensures { Answers (path_refused (in_baseline ∷ not_in_change ∷ []) call.now files.now path.now) result }
{
    if !is_in_baseline(call.state(), path) {
        return Err(Refused::Because(Refusal::FileNotInProject(path.copy(alloc)?)));
    }
    not_in_change(alloc, files, path)
}

// The path is as it is asked to be before its file is made or taken away.
fn asked_before(
    alloc: Global,
    call: &Call,
    files: &[ChangeFile],
    path: &Path,
) -> Result<(), Refused>
    requires of_files { is_of_files call.now.command.function ≡ true }
    requires ascend { Ascends text_cmp file_path files.now }
    ensures { Answers (path_refused (asked_before call.now.command.function) call.now files.now path.now) result }
{
    match call.command().function {
        Function::CopyFile => may_be_copied(alloc, call, files, path),
        Function::NewFile => may_be_made(alloc, call, files, path),
        Function::NewTest => may_be_made(alloc, call, files, path),
        Function::RemoveFile => may_be_removed(alloc, call, files, path),
        _ => in_change_so(alloc, call, files, path),
    }
}

// The files of a change are at most 1,000.
fn are_few(files: &[ChangeFile]) -> Result<(), Refusal>
    ensures { IsPermission (are_few files.now) result }
{
    if files.len() <= MOST_CHANGE_FILES {
        Ok(())
    } else {
        Err(Refusal::Limit(Which::ChangeFiles, MOST_CHANGE_FILES as u64))
    }
}

// The files that a path leaves are as they are asked to be.
fn asked_after(
    alloc: Global,
    call: &Call,
    files: &[ChangeFile],
    path: &Path,
    were_clear: bool,
) -> Result<(), Refused>
    requires of_files { is_of_files call.now.command.function ≡ true }
    requires ascend { Ascends text_cmp file_path files.now }
    requires clear { were_clear ≡ true → IsClearBut path.now call.now.stands files.now }
    ensures { Answers (asked_after call.now.command.function call.now.stands files.now) result }
{
    match call.command().function {
        Function::CopyFile | Function::NewFile | Function::NewTest => {
            stay_clear(alloc, call.state(), files, path, were_clear)?;
            are_few(files)?;
            Ok(())
        }
        Function::RemoveFile => Ok(are_few(files)?),
        Function::RemoveFileUndo => stay_clear(alloc, call.state(), files, path, were_clear),
        _ => Ok(()),
    }
}

// Whether the function asks for clashes after each path.
fn asks_for_clashes(function: Function) -> bool
    ensures { result ≡ asks_for_clashes function }
{
    match function {
        Function::CopyFile | Function::NewFile | Function::NewTest | Function::RemoveFileUndo =>
            true,
        _ => false,
    }
}

// Does the function on a path, or says why it is refused. Where the files are known to be clear, only the path is tested for
// clashes.
fn step(
    alloc: Global,
    call: &Call,
    files: &mut Vec<ChangeFile>,
    path: &Path,
    known_clear: bool,
) -> Result<(), Refused>
    requires of_files { is_of_files call.now.command.function ≡ true }
    requires ascend { Ascends text_cmp file_path files.old.items }
    requires clear { known_clear ≡ true → are_clear call.now.stands files.old.items ≡ None }
    ensures answer { Answers (path_refused (asked_of_path call.now.command.function) call.now files.old.items path.now) result }
    ensures files { OnOk result (files.new.items ≡ files_then call.now path.now files.old.items) }
    ensures ascend { UnlessMemory result (Ascends text_cmp file_path files.new.items) }
    ensures clear { OnOk result (asks_for_clashes call.now.command.function ≡ true → are_clear call.now.stands files.new.items ≡ None) }
{
    call.note_sound();
    asked_before(alloc, call, files.as_slice(), path)?;
    let made = file_made(alloc, call, path)?;
    set_file(files, path, made)?;
    asked_after(alloc, call, files.as_slice(), path, known_clear)
}

/// The paths of the command are as its function asks, each as if those before it were done.
pub(crate) fn paths_are_right(alloc: Global, call: &Call, change: &Change) -> Result<(), Refused>
    requires of_files { is_of_files call.now.command.function ≡ true }
    requires ascend { Ascends text_cmp file_path change.now.files }
    ensures { Answers (paths_are_right call.now change.now) result }
{
    let mut files = change.files.copy(alloc)?.into_vec();
    let mut known_clear = false;
    for path in call.command().paths.as_slice() {
        step(alloc, call, &mut files, path, known_clear)?;
        known_clear = asks_for_clashes(call.command().function);
    }
    Ok(())
}

// What happens to a path.
fn path_event(alloc: Global, call: &Call, path: &Path) -> Result<EventKind, AllocError>
    requires { is_of_files call.now.command.function ≡ true }
    ensures { IfOk result (λ kind. kind ≡ path_event call.now path.now) }
{
    let path_copy = path.copy(alloc)?;
    match file_made(alloc, call, path)? {
        Some(file) => Ok(EventKind::File(path_copy, file.action, file.usage, file.origin)),
        None => Ok(EventKind::Unfile(path_copy)),
    }
}

/// Accepted, with an event for each path.
pub(crate) fn accept_files(alloc: Global, call: &Call, when: u64) -> Result<Verdict, AllocError>
    requires { is_of_files call.now.command.function ≡ true }
    ensures { IfOk result (λ verdict. verdict ≡ Accept (map (event_by (maker_by call.now.command call.now.who when) call.now.command.change) (map (path_event call.now) call.now.command.paths))) }
{
    let maker = call.maker(when);
    let mut events = EventList::new(alloc);
    for path in call.command().paths.as_slice() {
        let what = path_event(alloc, call, path)?;
        push_event(alloc, &mut events, &maker, call.command().change, what)?;
    }
    Ok(Verdict::Accept(events))
}

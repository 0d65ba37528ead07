// Why an integration isn't begun, passed or failed, or isn't undone, by what asks nothing of the directories.
ghost use Rattle.std.specs.Prelude.{◌≡◌, ◌∷◌, [], Some, count_by, filter, length, option_copied, IfOk};
ghost use Rattle.std.specs.List.{find};
ghost use Rattle.std.specs.Option.{is_none};
ghost use Rattle.ae_base.specs.Rows.{text_cmp};
ghost use Rattle.ae_policy.specs.Making.{IsPermission};
ghost use Rattle.ae_types.specs.declared.change.Change.{Change as ChangeRecord};
ghost use Rattle.ae_types.specs.declared.change.ChangeFile.{ChangeFile};
ghost use Rattle.ae_types.specs.Found.{change_at, file_path, row_in};
ghost use Rattle.ae_types.specs.Ordered.{Ascends};
ghost use Rattle.ae_types.specs.Phases.{is_integrating, is_test};
ghost use Rattle.ae_base.specs.declared.words.Ground.TheVariants.{Integrate};
ghost use Rattle.ae_evidence.specs.Digest.{digest_rows};
ghost use Rattle.ae_types.specs.Runs.{missing};
ghost use Rattle.ae_types.specs.Trees.{TreeRow as TreeFile, candidate_of};
ghost use Rattle.ae_machine.specs.Call.{first_of};
ghost use Rattle.ae_machine.specs.Freezing.{candidate_tests, deltas_have_room, files_have_room, integrate_runs_suffice, nobody_integrates, paths_ever, tests_fit_project, tests_have_room};
ghost use Rattle.ae_machine.specs.Permission.{caller_integrates, caller_is_integrator, developer_may_integrate, may_come_in, reviewer_may_integrate, right_phase};
ghost use Rattle.ae_machine.specs.Refused.{Answers};
ghost use Rattle.ae_machine.specs.Verdict.{asked};

use crate::call::Call;
use crate::clashes::leaves_no_clash;
use crate::reading::candidate_tree;
use crate::refused::{Refused, refuse};
use crate::refusing::{history_has_room, right_phase};
use crate::runs::is_integrating;
use crate::working::caller_integrates;
use ae_base::limits::{MOST_DELTAS, MOST_PROJECT_FILES, MOST_PROJECT_TESTS};
use ae_base::{ChangeNo, Ground, Refusal, Role, Usage, Which};
use ae_evidence::{digest_rows, missing};
use ae_policy::{has_role, may_integrate};
use ae_types::{Change, ChangeFile, State, TreeRow};
use ae_words::Function;
use std::alloc::{AllocError, Global};

// ---- who integrates

fn caller_is_integrator(call: &Call) -> Result<(), Refusal>
    ensures { IsPermission (caller_is_integrator call.now) result }
{
    if has_role(call.state().project(), Role::Integrator, call.who()) {
        Ok(())
    } else {
        Err(Refusal::NotIntegrator)
    }
}

// The caller is an integrator, and neither the developer nor the reviewer of the change, unless these may integrate.
fn caller_may_integrate(call: &Call) -> Result<(), Refusal>
    ensures { IsPermission (first_of (caller_is_integrator ∷ developer_may_integrate ∷ reviewer_may_integrate ∷ []) call.now) result }
{
    match call.change() {
        Some(change) => may_integrate(call.state().project(), change, call.who()),
        None => caller_is_integrator(call),
    }
}

// The first of the changes that is being integrated.
fn first_integrated(changes: &[Change]) -> Option<&Change>
    ensures { option_copied result ≡ find (λ (other : ChangeRecord). is_integrating other.phase) changes.now }
{
    changes.iter().find(|other| is_integrating(other.phase))
}

fn nobody_integrates(call: &Call) -> Result<(), Refusal>
    ensures { IsPermission (nobody_integrates call.now) result }
{
    match first_integrated(call.state().changes()) {
        Some(other) => Err(Refusal::IntegrationInProgress(other.number)),
        None => Ok(()),
    }
}

// ---- room

// Whether the project never had the file's path.
fn is_new_path(state: &State, file: &ChangeFile) -> bool
    ensures { result ≡ is_none (row_in state.now.files file.now.path) }
{
    state.row(&file.path).is_none()
}

// How many of the files have paths that the project never had.
fn new_paths(state: &State, files: &[ChangeFile]) -> usize
    ensures { result ≡ count_by (λ (file : ChangeFile). is_none (row_in state.now.files file.path)) files.now }
{
    files.iter().filter(|file| is_new_path(state, file)).count()
}

// How many paths the project has or had, with those of the change.
fn paths_ever(state: &State, change: &Change) -> usize
    requires { Ascends text_cmp file_path change.now.files }
    ensures { result ≡ length (paths_ever state.now change.now) }
{
    state.note_sound();
    state.files().len() + new_paths(state, change.files.as_slice())
}

// The project has at most 20,000 files, with those of the change.
fn files_have_room(call: &Call) -> Result<(), Refusal>
    ensures { IsPermission (files_have_room call.now) result }
{
    call.note_sound();
    match call.change() {
        Some(change) if MOST_PROJECT_FILES < paths_ever(call.state(), change) => {
            Err(Refusal::Limit(Which::ProjectFiles, Which::ProjectFiles.most()))
        }
        _ => Ok(()),
    }
}

// How many of the files are tests.
fn tests_in(rows: &[TreeRow]) -> usize
    ensures { result ≡ length (filter (λ (row : TreeFile). is_test row.usage) rows.now) }
{
    rows.iter().filter(|row| row.usage == Usage::Test).count()
}

// How many tests the candidate has.
fn candidate_tests(
    alloc: Global,
    state: &State,
    number: ChangeNo,
    change: &Change,
) -> Result<usize, AllocError>
    requires named { change_at state.now number ≡ Some change.now }
    ensures { IfOk result (λ count. count ≡ length (candidate_tests state.now change.now)) }
{
    let tree = candidate_tree(alloc, state, number, change)?;
    Ok(tests_in(tree.as_slice()))
}

fn tests_fit_project(
    alloc: Global,
    call: &Call,
    number: ChangeNo,
    change: &Change,
) -> Result<(), Refused>
    requires named { change_at call.now.stands number ≡ Some change.now }
    ensures { Answers (tests_fit_project call.now change.now) result }
{
    if candidate_tests(alloc, call.state(), number, change)? <= MOST_PROJECT_TESTS {
        return Ok(());
    }
    let most = Which::ProjectTests.most();
    Err(Refused::Because(Refusal::Limit(Which::ProjectTests, most)))
}

// The candidate has at most 1,000 tests.
fn tests_have_room(alloc: Global, call: &Call) -> Result<(), Refused>
    ensures { Answers (tests_have_room call.now) result }
{
    let Some(number) = call.command().change else {
        return Ok(());
    };
    match call.state().change(number) {
        Some(change) => tests_fit_project(alloc, call, number, change),
        None => Ok(()),
    }
}

// The project has at most 1,990 deltas, with the one to be.
fn deltas_have_room(call: &Call) -> Result<(), Refusal>
    ensures { IsPermission (deltas_have_room call.now) result }
{
    if call.state().project().deltas.len() < MOST_DELTAS {
        Ok(())
    } else {
        Err(Refusal::Limit(Which::Deltas, Which::Deltas.most()))
    }
}

// ---- runs

// Why the runs that the change needs don't count for the candidate.
fn runs_missing(
    alloc: Global,
    state: &State,
    number: ChangeNo,
    change: &Change,
) -> Result<Option<Refusal>, AllocError>
    requires named { change_at state.now number ≡ Some change.now }
    ensures { IfOk result (λ refusal. refusal ≡ missing state.now change.now Integrate (digest_rows (candidate_of state.now change.now))) }
{
    let tree = candidate_tree(alloc, state, number, change)?;
    missing(alloc, state, number, Ground::Integrate, &digest_rows(&tree))
}

// The runs that the change needs count for the candidate.
fn integrate_runs_suffice(alloc: Global, call: &Call) -> Result<(), Refused>
    ensures { Answers (integrate_runs_suffice call.now) result }
{
    let Some(number) = call.command().change else {
        return Ok(());
    };
    match call.state().change(number) {
        Some(change) => refuse(runs_missing(alloc, call.state(), number, change)?)?,
        None => {}
    }
    Ok(())
}

// ---- functions

pub(crate) fn integrate_begin(alloc: Global, call: &Call) -> Result<(), Refused>
    ensures { Answers (first_of (asked Function.IntegrateBegin) call.now) result }
{
    right_phase(call)?;
    caller_may_integrate(call)?;
    nobody_integrates(call)?;
    leaves_no_clash(alloc, call)?;
    files_have_room(call)?;
    tests_have_room(alloc, call)?;
    deltas_have_room(call)?;
    history_has_room(call)?;
    Ok(())
}

/// What the undo of its begin and its failure ask.
pub(crate) fn integrate_fail(alloc: Global, call: &Call) -> Result<(), Refused>
    requires integrating { may_come_in call.now.command.function ≡ is_integrating }
    ensures { Answers (first_of (right_phase ∷ caller_integrates ∷ []) call.now) result }
{
    right_phase(call)?;
    caller_integrates(alloc, call)
}

pub(crate) fn integrate_pass(alloc: Global, call: &Call) -> Result<(), Refused>
    requires pass { call.now.command.function ≡ Function.IntegratePass }
    ensures { Answers (first_of (asked Function.IntegratePass) call.now) result }
{
    right_phase(call)?;
    caller_integrates(alloc, call)?;
    integrate_runs_suffice(alloc, call)
}

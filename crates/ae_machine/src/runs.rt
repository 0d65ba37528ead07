// Which runs a build or a test is to make, and with which values.
ghost use Rattle.std.specs.Prelude.{◌≡◌, ◌∷◌, ◌<◌, [], ℕ, List, None, length, true, IfOk, IfSome, option_copied};
ghost use Rattle.ae_base.specs.Limits.{most_deltas};
ghost use Rattle.ae_base.specs.Names.{IsPath};
ghost use Rattle.ae_base.specs.declared.words.Kind.{Kind};
ghost use Rattle.ae_types.specs.Found.{file_path};
ghost use Rattle.ae_types.specs.Ordered.{Ascends};
ghost use Rattle.ae_types.specs.Phases.{is_integrating};
ghost use Rattle.ae_types.specs.Rules.{deltas_are_numbered};
ghost use Rattle.ae_types.specs.Trees.{last_delta};
ghost use Rattle.ae_base.specs.Rows.{text_cmp};
ghost use Rattle.ae_machine.specs.Call.{call_of};
ghost use Rattle.ae_machine.specs.Commands.{AreValues, values_of};
ghost use Rattle.ae_machine.specs.Runs.{delta_of_run, group, group_of, kind_of, part_of, test_kind};

use ae_base::{Delta, Ground, Kind, Path, Phase, ProjectName};
use ae_conf::Values;
use ae_evidence::{RunKey, RunKeyList, other_runs, own_runs};
use ae_types::{Change, DeltaRow, State};
use ae_words::{Command, Function};
use std::alloc::{AllocError, Global};

pub(crate) fn is_integrating(phase: Phase) -> bool
    ensures { result ≡ is_integrating phase }
{
    match phase {
        Phase::BeingIntegrated => true,
        _ => false,
    }
}

/// During which part of a change's life a run is made.
pub(crate) fn part_of(phase: Phase) -> Ground
    ensures { result ≡ part_of phase }
{
    if is_integrating(phase) {
        Ground::Integrate
    } else {
        Ground::Develop
    }
}

// Of which kind the tests are that the options ask for.
fn test_kind(command: &Command) -> Kind
    ensures { result ≡ test_kind command.now }
{
    if command.regression {
        Kind::RegressionTest
    } else if command.baseline {
        Kind::BaselineTest
    } else {
        Kind::Test
    }
}

/// Of which kind the runs of a command are.
pub(crate) fn kind_of(command: &Command) -> Kind
    ensures { result ≡ kind_of command.now.function command.now }
{
    match command.function {
        Function::Test => test_kind(command),
        _ => Kind::Build,
    }
}

fn one_build(alloc: Global) -> Result<RunKeyList, AllocError>
    ensures { IfOk result (λ runs. runs ≡ record { kind = Kind.Build; path = None } ∷ []) }
{
    let mut runs = RunKeyList::new(alloc);
    runs.push(RunKey {
        kind: Kind::Build,
        path: None,
    })?;
    Ok(runs)
}

fn tests(
    alloc: Global,
    state: &State,
    command: &Command,
    change: &Change,
) -> Result<RunKeyList, AllocError>
    requires { Ascends text_cmp file_path change.now.files }
    ensures { (who : List ℕ) → IfOk result (λ runs. runs ≡ group_of Function.Test (call_of state.now command.now who) change.now) }
{
    match test_kind(command) {
        Kind::RegressionTest => other_runs(alloc, state, change),
        Kind::BaselineTest => own_runs(alloc, Kind::BaselineTest, change),
        Kind::Test => own_runs(alloc, Kind::Test, change),
        Kind::Build => own_runs(alloc, Kind::Build, change),
    }
}

/// The runs that the command is to make, in their order.
pub(crate) fn group(
    alloc: Global,
    state: &State,
    command: &Command,
    change: &Change,
) -> Result<RunKeyList, AllocError>
    requires { Ascends text_cmp file_path change.now.files }
    ensures { (who : List ℕ) → IfOk result (λ runs. runs ≡ group (call_of state.now command.now who) change.now) }
{
    match command.function {
        Function::Build => one_build(alloc),
        Function::Test => tests(alloc, state, command, change),
        _ => Ok(RunKeyList::new(alloc)),
    }
}

// The number of the last delta, of deltas that are numbered.
fn last_of(deltas: &[DeltaRow]) -> Delta
    requires { deltas_are_numbered deltas.now ≡ true }
    ensures { result ≡ length deltas.now }
{
    match deltas.last() {
        Some(last) => last.delta,
        None => Delta::of(0),
    }
}

/// The number of the last delta, 0 where there is none.
pub fn last_delta(state: &State) -> Delta
    ensures { result ≡ last_delta state.now }
{
    last_of(state.project().deltas.as_slice())
}

/// The delta of a run: in development the last one, in integration the one to be.
pub(crate) fn delta_of_run(state: &State, change: &Change) -> Delta
    requires { is_integrating change.now.phase ≡ true → length state.now.project.deltas < most_deltas }
    ensures { (command : _) (who : List ℕ) → result ≡ delta_of_run (call_of state.now command who) change.now }
{
    let last = last_delta(state);
    if is_integrating(change.phase) {
        Delta::of(last.number() + 1)
    } else {
        last
    }
}

/// A copy of the path, where there is one.
pub(crate) fn named_copy(alloc: Global, path: Option<&Path>) -> Result<Option<Path>, AllocError>
    ensures copy { IfOk result (λ copy. copy ≡ option_copied path.entry) }
    ensures is_path { IfOk result (λ copy. IfSome copy IsPath) }
{
    match path {
        Some(path) => {
            let _name = path.bytes();
            Ok(Some(path.copy(alloc)?))
        }
        None => Ok(None),
    }
}

/// The values that stand for the names in the command of a run.
pub(crate) fn values_of(
    alloc: Global,
    project: &ProjectName,
    change: &Change,
    delta: Delta,
    path: Option<&Path>,
) -> Result<Values, AllocError>
    ensures values { (kind : Kind) → IfOk result (λ values. values ≡ values_of project.now change.now delta (record { kind = kind; path = option_copied path.entry })) }
    ensures names { IfOk result AreValues }
{
    let _names = project.bytes();
    let _numbers = (change.number.number(), delta.number());
    let file_name = named_copy(alloc, path)?;
    Ok(Values {
        file_name,
        change: change.number,
        project: project.copy(alloc)?,
        delta,
    })
}

// Why a build or a test isn't made, by what asks nothing of the directories.
ghost use Rattle.std.specs.Prelude.{◌≡◌, true, is_some, None};
ghost use Rattle.ae_types.specs.Phases.{is_integrating};
ghost use Rattle.ae_machine.specs.Call.{first_of};
ghost use Rattle.ae_machine.specs.Fits.{makes_runs};
ghost use Rattle.ae_machine.specs.Freezing.{there_are_tests};
ghost use Rattle.ae_machine.specs.Permission.{caller_integrates, caller_works, integrator_is_caller, may_come_in, right_phase, worker_is_caller};
ghost use Rattle.ae_machine.specs.Refused.{Answers};
ghost use Rattle.ae_machine.specs.Verdict.{asked};

use crate::call::Call;
use crate::refused::Refused;
use crate::refusing::{developer_is_caller, right_phase};
use crate::runs::{group, is_integrating};
use ae_base::Refusal;
use ae_types::Change;
use ae_words::Function;
use std::alloc::Global;

// The caller integrates the change, which has an integrator.
fn integrator_is_caller(alloc: Global, call: &Call, change: &Change) -> Result<(), Refused>
    requires integrated { is_some change.now.integrator ≡ true }
    ensures { Answers (integrator_is_caller call.now change.now) result }
{
    let Some(integrator) = &change.integrator else {
        unreachable!()
    };
    if call.who().bytes() == integrator.bytes() {
        return Ok(());
    }
    let integrator = integrator.copy(alloc)?;
    Err(Refused::Because(Refusal::NotThisIntegrator(integrator)))
}

/// The caller integrates the change. It is being integrated.
pub(crate) fn caller_integrates(alloc: Global, call: &Call) -> Result<(), Refused>
    requires integrating { may_come_in call.now.command.function ≡ is_integrating }
    requires phase { right_phase call.now ≡ None }
    ensures { Answers (caller_integrates call.now) result }
{
    call.note_sound();
    match call.change() {
        Some(change) => integrator_is_caller(alloc, call, change),
        None => Ok(()),
    }
}

// The caller works on the change, which has a developer, and an integrator where it is being integrated.
fn worker_is_caller(alloc: Global, call: &Call, change: &Change) -> Result<(), Refused>
    requires developed { is_some change.now.developer ≡ true }
    requires integrated { is_integrating change.now.phase ≡ true → is_some change.now.integrator ≡ true }
    ensures { Answers (worker_is_caller call.now change.now) result }
{
    if is_integrating(change.phase) {
        integrator_is_caller(alloc, call, change)
    } else {
        developer_is_caller(alloc, call, change)
    }
}

// In development the caller develops the change, in integration he integrates it.
fn caller_works(alloc: Global, call: &Call) -> Result<(), Refused>
    requires runs { makes_runs call.now.command.function ≡ true }
    requires phase { right_phase call.now ≡ None }
    ensures { Answers (caller_works call.now) result }
{
    call.note_sound();
    match call.change() {
        Some(change) => worker_is_caller(alloc, call, change),
        None => Ok(()),
    }
}

// There is a test of the kind that is asked for.
fn there_are_tests(alloc: Global, call: &Call) -> Result<(), Refused>
    ensures { Answers (there_are_tests call.now) result }
{
    call.note_sound();
    let Some(change) = call.change() else {
        return Ok(());
    };
    let runs = group(alloc, call.state(), call.command(), change)?;
    if runs.len() == 0 {
        Err(Refused::Because(Refusal::NoTest))
    } else {
        Ok(())
    }
}

// ---- functions

pub(crate) fn build(alloc: Global, call: &Call) -> Result<(), Refused>
    requires runs { makes_runs call.now.command.function ≡ true }
    ensures { Answers (first_of (asked Function.Build) call.now) result }
{
    right_phase(call)?;
    caller_works(alloc, call)
}

pub(crate) fn test(alloc: Global, call: &Call) -> Result<(), Refused>
    requires runs { makes_runs call.now.command.function ≡ true }
    ensures { Answers (first_of (asked Function.Test) call.now) result }
{
    right_phase(call)?;
    caller_works(alloc, call)?;
    there_are_tests(alloc, call)
}

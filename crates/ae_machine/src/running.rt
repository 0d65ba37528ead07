// The answer to a build or a test that the conditions without reading let pass.
ghost use Rattle.std.specs.Prelude.{◌≡◌, ◌∷◌, [], ℕ, List, Some, true, IfOk};
ghost use Rattle.ae_types.specs.Found.{change_at};
ghost use Rattle.ae_machine.specs.Call.{Placing, first_of};
ghost use Rattle.ae_machine.specs.Deciding.{given_to};
ghost use Rattle.ae_machine.specs.Fits.{makes_runs};
ghost use Rattle.ae_machine.specs.Freezing.{configured, right_files};
ghost use Rattle.ae_machine.specs.Verdict.{answer, events_of};
ghost use Rattle.ae_machine.specs.Versions.{ShowsVersions};

use crate::asking::files_refused;
use crate::call::Call;
use crate::jobs::{accept_seen, jobs_of};
use crate::{Verdict, View};
use ae_base::ChangeNo;
use ae_log::EventList;
use ae_types::Change;
use std::alloc::{AllocError, Global};

// The answer, where the change is there.
fn answer_runs(
    alloc: Global,
    call: &Call,
    number: ChangeNo,
    change: &Change,
    now: u64,
    view: &View,
) -> Result<Verdict, AllocError>
    requires runs { makes_runs call.now.command.function ≡ true }
    requires names { call.now.command.change ≡ Some number }
    requires named { change_at call.now.stands number ≡ Some change.now }
    ensures { (places : Placing) (bytes : ℕ → List ℕ) → ShowsVersions (Some call.now.stands) bytes call.now.command call.now.who view.now →
        let given = given_to places call.now bytes now view.now in
        IfOk result (λ verdict. verdict ≡ answer (first_of (right_files ∷ configured ∷ []) given) (events_of given)) }
{
    let state = call.state();
    let command = call.command();
    if let Some(refusal) = files_refused(alloc, state, command, view)? {
        return Ok(Verdict::Refuse(refusal));
    }
    match jobs_of(alloc, state, command, number, change, view)? {
        Ok(_) => accept_seen(alloc, call, number, change, now, view),
        Err(refusal) => Ok(Verdict::Refuse(refusal)),
    }
}

/// The answer to a build or a test: whether the files are as they should be, and each run has a command, and then the runs
/// that the command saw, as events.
pub(crate) fn decide_runs(
    alloc: Global,
    call: &Call,
    now: u64,
    view: &View,
) -> Result<Verdict, AllocError>
    requires runs { makes_runs call.now.command.function ≡ true }
    ensures { (places : Placing) (bytes : ℕ → List ℕ) → ShowsVersions (Some call.now.stands) bytes call.now.command call.now.who view.now →
        let given = given_to places call.now bytes now view.now in
        IfOk result (λ verdict. verdict ≡ answer (first_of (right_files ∷ configured ∷ []) given) (events_of given)) }
{
    let Some(number) = call.command().change else {
        return Ok(Verdict::Accept(EventList::new(alloc)));
    };
    match call.state().change(number) {
        Some(change) => answer_runs(alloc, call, number, change, now, view),
        None => Ok(Verdict::Accept(EventList::new(alloc))),
    }
}

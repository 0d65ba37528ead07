// The state after the events of a command.
ghost use Rattle.std.specs.Prelude.{◌≡◌, Some, None, IfOk, option_copied};
ghost use Rattle.ae_log.specs.After.{after_all};
ghost use Rattle.ae_machine.specs.Accepted.{AppliesAll};
ghost use Rattle.ae_exec.specs.Next.{next_of, MayBegin, MayFollow};

use ae_log::{EventList, apply, start};
use ae_types::State;
use std::alloc::{AllocError, Global};

// The state of the project that the one event makes.
fn started(alloc: Global, events: &EventList) -> Result<State, AllocError>
    requires begin { MayBegin events.now }
    ensures { IfOk result (λ state. next_of None events.now ≡ Some state) }
{
    let Some(event) = events.as_slice().first() else {
        unreachable!()
    };
    start(alloc, event)
}

// The state after events, one after another.
fn applied(alloc: Global, state: State, events: EventList) -> Result<State, AllocError>
    requires come { AppliesAll state events }
    ensures { IfOk result (λ next. next ≡ after_all state events) }
{
    state.note_sound();
    let mut state = state;
    for event in events.into_vec() {
        state = apply(alloc, state, event)?;
    }
    Ok(state)
}

/// The state after the events of a command.
pub(crate) fn next_state(
    alloc: Global,
    old: Option<&State>,
    events: EventList,
) -> Result<State, AllocError>
    requires follow { MayFollow (option_copied old) events }
    ensures { IfOk result (λ next. next_of (option_copied old.entry) events ≡ Some next) }
{
    match old {
        Some(state) => applied(alloc, state.copy(alloc)?, events),
        None => started(alloc, &events),
    }
}

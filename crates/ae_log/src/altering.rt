// What an event makes of its change.
ghost use Rattle.std.specs.Prelude.{◌≡◌, OnOk};
ghost use Rattle.ae_log.specs.After.{changed, change_after, moved};
ghost use Rattle.ae_log.specs.Applies.{MayAlter};
ghost use Rattle.ae_log.specs.Maker.{maker_of};
ghost use Rattle.ae_log.specs.Phases.{phase_after, with_row, word_of};

use crate::development::set_developer;
use crate::files::{add_file, drop_file};
use crate::freezing::{end_development, send_back, thaw};
use crate::integration::set_integrator;
use crate::phases::{phase_after, word_of};
use crate::runs::row_of_run;
use crate::{Event, EventKind};
use ae_base::User;
use ae_types::{Change, ChangeAttributes, HistoryRow, TryCopy, note_run};
use std::alloc::{AllocError, Global};

fn set_attributes(change: &mut Change, attributes: ChangeAttributes)
    ensures { change.new ≡ record change.old { attributes = attributes } }
{
    change.attributes = attributes;
}

fn set_reviewing(change: &mut Change, reviewing: Option<User>)
    ensures { change.new ≡ record change.old { reviewing = reviewing } }
{
    change.reviewing = reviewing;
}

fn set_reviewer(change: &mut Change, reviewer: Option<User>)
    ensures { change.new ≡ record change.old { reviewer = reviewer } }
{
    change.reviewer = reviewer;
}

// What an event makes of its change, but for its phase and history.
fn change_parts(
    alloc: Global,
    change: &mut Change,
    next: u64,
    event: &Event,
) -> Result<(), AllocError>
    requires { MayAlter next event.now change.old }
    ensures { OnOk result (change.new ≡ changed next event.now event.now.what change.old) }
{
    match &event.what {
        EventKind::ChangeAttributes(attributes) => set_attributes(change, attributes.copy(alloc)?),
        EventKind::Begin => set_developer(alloc, change, Some(event.who.copy(alloc)?)),
        EventKind::BeginUndo => set_developer(alloc, change, None),
        EventKind::File(path, action, usage, origin) => {
            add_file(alloc, change, path, *action, *usage, *origin)?;
        }
        EventKind::Unfile(path) => drop_file(alloc, change, path),
        EventKind::Run(run) => note_run(alloc, change, row_of_run(alloc, event, run)?)?,
        EventKind::End(tree, _, places) => end_development(alloc, change, next, tree, places),
        EventKind::EndUndo | EventKind::Fail => send_back(alloc, change),
        EventKind::ReviewBegin => set_reviewing(change, Some(event.who.copy(alloc)?)),
        EventKind::ReviewBeginUndo => set_reviewing(change, None),
        EventKind::Pass => set_reviewer(change, Some(event.who.copy(alloc)?)),
        EventKind::PassUndo => set_reviewer(change, None),
        EventKind::IBegin => set_integrator(alloc, change, Some(event.who.copy(alloc)?)),
        EventKind::IBeginUndo => set_integrator(alloc, change, None),
        EventKind::IPass => thaw(alloc, change),
        EventKind::IFail => {
            send_back(alloc, change);
            set_integrator(alloc, change, None);
        }
        _ => {}
    }
    Ok(())
}

// The change goes into the phase of the event, and its history gets the row, where the event has one.
fn enter_phase(alloc: Global, change: &mut Change, event: &Event) -> Result<(), AllocError>
    ensures { OnOk result (change.new ≡ record change.old { phase = moved (phase_after event.now.what) change.old.phase; history = with_row (word_of event.now.what) (maker_of event.now) change.old.history }) }
{
    if let Some(phase) = phase_after(&event.what) {
        change.phase = phase;
    }
    match word_of(&event.what) {
        Some(what) => change.history.push(HistoryRow {
            what,
            who: event.who.copy(alloc)?,
            when: event.when,
            why: event.why.copy(alloc)?,
        }),
        None => Ok(()),
    }
}

/// The change is what the event makes of it; `next` is the number of the next version.
pub(crate) fn alter(
    alloc: Global,
    change: &mut Change,
    next: u64,
    event: &Event,
) -> Result<(), AllocError>
    requires { MayAlter next event.now change.old }
    ensures { OnOk result (change.new ≡ change_after next event.now change.old) }
{
    change_parts(alloc, change, next, event)?;
    enter_phase(alloc, change, event)
}

// The runs of a change: what is noted of one, and those that go.
ghost use Rattle.std.specs.Prelude.{◌≡◌, option_copied, IfOk};
ghost use Rattle.ae_types.specs.Runs.{same_during};
ghost use Rattle.ae_log.specs.After.{without_runs};
ghost use Rattle.ae_log.specs.Runs.{evidence_row, run_status, same_rows};

use crate::{Event, RunEvent};
use ae_base::{Ground, Path, Text};
use ae_outside::Exit;
use ae_types::{Evidence, EvidenceList};
use std::alloc::{AllocError, Global};

// The status of a run: its code, or 256 and the number of the signal.
fn run_status(exit: Exit) -> u16
    ensures { result ≡ run_status exit }
{
    match exit {
        Exit::Code(code) => u16::from(code),
        Exit::Signal(signal) => 256 + u16::from(signal),
    }
}

// Whether the files are the same.
fn same_rows(one: &[(Path, Option<Text>)], other: &[(Path, Option<Text>)]) -> bool
    ensures { result ≡ same_rows one.now other.now }
{
    one == other
}

// An equal path, or none.
fn copy_path(alloc: Global, path: Option<&Path>) -> Result<Option<Path>, AllocError>
    ensures { IfOk result (λ copy. copy ≡ option_copied path.entry) }
{
    match path {
        Some(path) => Ok(Some(path.copy(alloc)?)),
        None => Ok(None),
    }
}

/// The row of a run that the event has. It is clean where the files after it are those before it.
pub(crate) fn row_of_run(
    alloc: Global,
    event: &Event,
    run: &RunEvent,
) -> Result<Evidence, AllocError>
    ensures { IfOk result (λ row. row ≡ evidence_row event.now run.now) }
{
    Ok(Evidence {
        during: run.during,
        kind: run.kind,
        path: copy_path(alloc, run.path.as_ref())?,
        status: run_status(run.exit),
        clean: same_rows(run.before.as_slice(), run.after.as_slice()),
        subject: run.subject,
        when: event.when,
        who: event.who.copy(alloc)?,
    })
}

// Whether both are the same part of a change's life.
fn same_during(one: Ground, other: Ground) -> bool
    ensures { result ≡ same_during one other }
{
    match (one, other) {
        (Ground::Develop, Ground::Develop) | (Ground::Integrate, Ground::Integrate) => true,
        _ => false,
    }
}

/// Takes out the runs of that part of a change's life.
pub(crate) fn drop_runs(alloc: Global, evidence: &mut EvidenceList, during: Ground)
    ensures { evidence.new ≡ without_runs during evidence.old }
{
    let old = std::mem::replace(evidence, EvidenceList::new(alloc));
    let mut rows = old.into_vec();
    rows.retain(|row| !same_during(during, row.during));
    *evidence = EvidenceList::of(rows);
}

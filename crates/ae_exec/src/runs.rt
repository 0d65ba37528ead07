// The runs of a command: what is said of them, and which fail.
ghost use Rattle.std.specs.Prelude.{◌≡◌, ◌++◌, [], codes, if◌then◌else◌, IfOk, OnOk, option_copied};
ghost use Rattle.ae_types.specs.Runs.{wanted};
ghost use Rattle.ae_log.specs.Runs.{run_status, same_rows};
ghost use Rattle.ae_machine.specs.Replies.{exit_text, quoted, quoted_path, run_noun, run_text};
ghost use Rattle.ae_exec.specs.Said.{a_run_failed, has_failed_run, run_passes};

use ae_base::{Kind, Path};
use ae_log::{Event, EventKind, RunEvent};
use ae_outside::Exit;
use std::alloc::{AllocError, Global};

// The status of a run: its code, or 256 and the number of the signal.
fn status(exit: Exit) -> u16
    ensures { result ≡ run_status exit }
{
    match exit {
        Exit::Code(code) => u16::from(code),
        Exit::Signal(signal) => 256 + u16::from(signal),
    }
}

// The status that a run is to end with.
fn wanted_status(kind: Kind) -> u16
    ensures { result ≡ wanted kind }
{
    match kind {
        Kind::BaselineTest => 1,
        _ => 0,
    }
}

// Whether the tracked files after the run are those before it.
fn leaves_files(run: &RunEvent) -> bool
    ensures { result ≡ same_rows run.now.before run.now.after }
{
    run.before.as_slice() == run.after.as_slice()
}

// Whether the run ends as wanted, and leaves the tracked files as they were.
fn passes(run: &RunEvent) -> bool
    ensures { result ≡ run_passes run.now }
{
    status(run.exit) == wanted_status(run.kind) && leaves_files(run)
}

// Whether the event is of a run that doesn't pass.
fn has_failed_run(event: &Event) -> bool
    ensures { result ≡ has_failed_run event.now }
{
    match &event.what {
        EventKind::Run(run) => !passes(run),
        _ => false,
    }
}

/// Whether one of the runs doesn't pass.
pub(crate) fn a_run_failed(events: &[Event]) -> bool
    ensures { result ≡ a_run_failed events.now }
{
    events.iter().any(|event| has_failed_run(event))
}

// What was run.
fn noun(kind: Kind) -> &'static [u8]
    ensures { result.now ≡ run_noun kind }
{
    match kind {
        Kind::Build => b"build",
        Kind::Test => b"test ",
        Kind::BaselineTest => b"baseline test ",
        Kind::RegressionTest => b"regression test ",
    }
}

/// A name, in quotes, is put at the end.
pub(crate) fn put_quoted(text: &mut Vec<u8>, name: &[u8]) -> Result<(), AllocError>
    ensures { OnOk result (text.new.items ≡ text.old.items ++ quoted name.now) }
{
    text.extend_from_slice(b"\"")?;
    text.extend_from_slice(name)?;
    text.extend_from_slice(b"\"")
}

// The path of a test, in quotes, is put at the end.
fn put_path(text: &mut Vec<u8>, path: Option<&Path>) -> Result<(), AllocError>
    ensures { OnOk result (text.new.items ≡ text.old.items ++ quoted_path (option_copied path.entry)) }
{
    match path {
        Some(path) => put_quoted(text, path.bytes()),
        None => Ok(()),
    }
}

// How it ended is put at the end.
fn put_exit(alloc: Global, text: &mut Vec<u8>, exit: Exit) -> Result<(), AllocError>
    ensures { OnOk result (text.new.items ≡ text.old.items ++ exit_text exit) }
{
    match exit {
        Exit::Code(code) => {
            text.extend_from_slice(format!(in alloc; ": status {code}")?.as_bytes())
        }
        Exit::Signal(signal) => {
            text.extend_from_slice(format!(in alloc; ": signal {signal}")?.as_bytes())
        }
    }
}

// What is said of files that the run changed.
fn files_text(run: &RunEvent) -> &'static [u8]
    ensures { result.now ≡ (if same_rows run.now.before run.now.after then [] else codes ", files changed") }
{
    if leaves_files(run) {
        b""
    } else {
        b", files changed"
    }
}

/// What was run, how it ended, and whether it changed files.
pub(crate) fn run_text(alloc: Global, run: &RunEvent) -> Result<Vec<u8>, AllocError>
    ensures { IfOk result (λ text. text.items ≡ run_text run.now) }
{
    let mut text = Vec::from_slice(alloc, noun(run.kind))?;
    put_path(&mut text, run.path.as_ref())?;
    put_exit(alloc, &mut text, run.exit)?;
    text.extend_from_slice(files_text(run))?;
    Ok(text)
}

// The builds of a script.
ghost use Rattle.std.specs.Prelude.{◌≡◌, ◌<◌, ◌≤◌, ◌++◌, ◌∷◌, ℕ, List, IfOk, IfSome, IfNone, OnSome};
ghost use Rattle.ae_reader.specs.Cut.{lines_of, most_bytes};
ghost use Rattle.ae_lines.specs.Script.{IsBad};
ghost use Rattle.ae_session.specs.Summary.{HasBuilds, IsCounted, builds_in};

use crate::stored::Stored;
use ae_lines::{Line, read_line};
use ae_reader::{LineError, LineReader};
use ae_words::Function;
use std::alloc::{AllocError, Global};

// How many builds a line is.
fn builds_in(line: &Line) -> u64
    ensures is { result ≡ builds_in line.now }
    ensures one { result ≤ 1 }
{
    match line {
        Line::Do(command) if command.function == Function::Build => 1,
        _ => 0,
    }
}

// How many builds the next line is, if it is there and understood.
fn next_builds(
    alloc: Global,
    reader: &mut LineReader,
    script: &mut Stored,
) -> Result<Option<u64>, AllocError>
    ensures next { IfOk result (λ o. IfSome o (IsCounted reader.old.at reader.new.at (reader.old.unread ++ script.old.rest.now) (reader.new.unread ++ script.new.rest.now))) }
    ensures one { IfOk result (λ o. IfSome o (λ count. count ≤ 1)) }
    ensures further { IfOk result (λ o. OnSome o (reader.old.at < reader.new.at)) }
    ensures within { IfOk result (λ o. OnSome o (reader.new.at ≤ most_bytes)) }
    ensures none { IfOk result (λ o. IfNone o ((line : List ℕ) (more : List (List ℕ)) → lines_of (reader.old.unread ++ script.old.rest.now) ≡ line ∷ more → IsBad reader.old.at line)) }
{
    let text = match reader.next_line(alloc, script) {
        Ok(Some(text)) => text,
        Ok(None) | Err(LineError::TooLong | LineError::Failed) => return Ok(None),
        Err(LineError::Memory) => return Err(AllocError),
    };
    match read_line(alloc, &text) {
        Ok(Some(line)) => {
            let count = builds_in(&line);
            drop(line);
            Ok(Some(count))
        }
        Ok(None) => Ok(None),
        Err(error) => Err(error),
    }
}

/// How many builds a script has, each line of which is understood.
pub(crate) fn count_builds(alloc: Global, script: &[u8]) -> Result<u64, AllocError>
    ensures { IfOk result (λ count. HasBuilds script.now count) }
{
    let mut reader = LineReader::new(alloc)?;
    let mut source = Stored { rest: script };
    let mut count: u64 = 0;
    while let Some(builds) = next_builds(alloc, &mut reader, &mut source)? {
        count += builds;
    }
    Ok(count)
}

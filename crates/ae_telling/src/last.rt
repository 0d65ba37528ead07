// How a call ends without a command, and how that is told.
ghost use Rattle.std.specs.Prelude.{◌≡◌, ◌≤◌, IfOk};
ghost use Rattle.ae_base.specs.declared.outcome.Outcome.TheVariants.{BadScript, BadWords, SourceFault, Memory};
ghost use Rattle.ae_telling.specs.Messages.{bad_line_text, bad_words_text, message};
ghost use Rattle.ae_telling.specs.Telling.{use_of_sink, IsTold, IsToldOrMemory};

use crate::put::put_all;
use crate::told::untold;
use ae_base::Outcome;
use ae_outside::Sink;
use std::alloc::{AllocError, Global};

// Tells how a call ended, in these words.
fn tell_last<O: Sink>(outcome: Outcome, text: &[u8], out: &mut O) -> Outcome
    ensures ends { IsTold outcome text.now (use_of_sink O.Sink out.old out.new) result }
    ensures later { O.faults out.old ≤ O.faults out.new }
{
    match put_all(out, text) {
        Ok(()) => outcome,
        Err(_) => untold(outcome),
    }
}

/// Tells that memory runs out.
pub fn tell_memory<O: Sink>(out: &mut O) -> Outcome
    ensures ends { IsTold Memory (message Memory) (use_of_sink O.Sink out.old out.new) result }
    ensures later { O.faults out.old ≤ O.faults out.new }
{
    tell_last(Outcome::Memory, b"aegis: out of memory\n", out)
}

/// Tells that the input can't be read.
pub fn tell_input_fault<O: Sink>(out: &mut O) -> Outcome
    ensures ends { IsTold SourceFault (message SourceFault) (use_of_sink O.Sink out.old out.new) result }
    ensures later { O.faults out.old ≤ O.faults out.new }
{
    tell_last(Outcome::SourceFault, b"aegis: input fault\n", out)
}

fn bad_line_message(alloc: Global, line: u32) -> Result<Vec<u8>, AllocError>
    ensures { IfOk result (λ text. text.items ≡ bad_line_text line) }
{
    let text = format!(in alloc; "aegis: line {line} is not understood\n")?;
    Ok(text.into_bytes())
}

/// Tells that the script's line of this number isn't understood, or that memory runs out for that.
pub fn tell_bad_line<O: Sink>(alloc: Global, line: u32, out: &mut O) -> Outcome
    ensures ends { IsToldOrMemory (BadScript line) (use_of_sink O.Sink out.old out.new) result }
    ensures later { O.faults out.old ≤ O.faults out.new }
{
    match bad_line_message(alloc, line) {
        Ok(text) => tell_last(Outcome::BadScript(line), &text, out),
        Err(_) => tell_memory(out),
    }
}

fn bad_words_message(alloc: Global, place: u32) -> Result<Vec<u8>, AllocError>
    ensures { IfOk result (λ text. text.items ≡ bad_words_text place) }
{
    let text = format!(in alloc; "aegis: word {place} is not understood\n")?;
    Ok(text.into_bytes())
}

/// Tells that the word at this place isn't understood, or that memory runs out for that.
pub fn tell_bad_words<E: Sink>(alloc: Global, place: u32, err: &mut E) -> Outcome
    ensures ends { IsToldOrMemory (BadWords place) (use_of_sink E.Sink err.old err.new) result }
    ensures later { E.faults err.old ≤ E.faults err.new }
{
    match bad_words_message(alloc, place) {
        Ok(text) => tell_last(Outcome::BadWords(place), &text, err),
        Err(_) => tell_memory(err),
    }
}

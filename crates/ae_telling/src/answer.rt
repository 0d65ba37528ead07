// An answer is told to one of two sinks.
ghost use Rattle.std.specs.Prelude.{◌≤◌, IfErr};
ghost use Rattle.ae_telling.specs.Answered.{IsAnswerTold, IsWhyTold};
ghost use Rattle.ae_telling.specs.Telling.{use_of_sink, IsOfCommand};

use crate::told::told_command;
use ae_base::{Outcome, Text};
use ae_outside::Sink;
use std::alloc::Global;

/// Tells the message of why there is no answer, and answers how the call ends.
pub fn tell_why<E: Sink>(alloc: Global, why: Outcome, err: &mut E) -> Outcome
    requires of_command { IsOfCommand why }
    ensures told { IsWhyTold why (use_of_sink E.Sink err.old err.new) result }
    ensures later { E.faults err.old ≤ E.faults err.new }
{
    let nothing = Text::of(Vec::new(alloc));
    told_command(alloc, why, nothing, false).tell_alone(err)
}

/// Tells the text to `out`, or the message of why there is none to `err`, and answers how the call ends.
pub fn tell_answer<O: Sink, E: Sink>(
    alloc: Global,
    answer: Result<Text, Outcome>,
    out: &mut O,
    err: &mut E,
) -> Outcome
    requires of_command { IfErr answer IsOfCommand }
    ensures told { IsAnswerTold answer (use_of_sink O.Sink out.old out.new) (use_of_sink E.Sink err.old err.new) result }
    ensures out_faults { O.faults out.old ≤ O.faults out.new }
    ensures err_faults { E.faults err.old ≤ E.faults err.new }
{
    match answer {
        Ok(text) => told_command(alloc, Outcome::Done, text, false).tell_alone(out),
        Err(why) => tell_why(alloc, why, err),
    }
}

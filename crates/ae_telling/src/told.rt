// What is said of a command or of a line, and how a script goes on after it.
ghost use Rattle.std.specs.Prelude.{◌≡◌, ◌≤◌, ◌⊎◌, ◌++◌, [], true, None, IfOk, IfSome};
ghost use Rattle.ae_base.specs.Refusals.{message_of};
ghost use Rattle.ae_base.specs.declared.outcome.Outcome.TheVariants.{Refused, Damaged, Memory};
ghost use Rattle.ae_telling.specs.Messages.{damaged_text, status_line, command_text};
ghost use Rattle.ae_telling.specs.Telling.{use_of_sink, goes_on, unless_told, written, IsOfCommand, IsStopped, IsTold, TakesMemory};

use crate::put::put_all;
use ae_base::{Outcome, Refusal, Text};
use ae_outside::Sink;
use std::alloc::{AllocError, Global};

/// How a command or a line ended, and the text that was made of it. A fault, or running out of memory, needs no text.
#[derive(Drop)]
pub struct Told {
    pub outcome: Outcome,
    pub text: Text,
    /// Whether a status line follows.
    pub status: bool,
}

impl Told {
    /// An outcome of which no text is made.
    pub fn bare(alloc: Global, outcome: Outcome, status: bool) -> Told
        ensures outcome { result.outcome ≡ outcome }
        ensures text { result.text ≡ [] }
        ensures status { result.status ≡ status }
    {
        Told {
            outcome,
            text: Text::of(Vec::new(alloc)),
            status,
        }
    }

    // What is written of it.
    fn bytes(&self) -> &[u8]
        ensures { result.now ≡ written self.now }
    {
        match (&self.outcome, self.status) {
            (Outcome::DiskFault, true) => b"aegis: disk fault\n= 3\n",
            (Outcome::DiskFault, false) => b"aegis: disk fault\n",
            (Outcome::SiteFault, true) => b"aegis: directory fault\n= 4\n",
            (Outcome::SiteFault, false) => b"aegis: directory fault\n",
            (Outcome::Memory, true) => b"aegis: out of memory\n= 8\n",
            (Outcome::Memory, false) => b"aegis: out of memory\n",
            _ => self.text.bytes(),
        }
    }

    /// Writes it, as of a line of a script: `None` where the script goes on, else how it ends.
    pub fn tell<O: Sink>(self, out: &mut O) -> Option<Outcome>
        ensures goes { result ≡ None → goes_on self.outcome ≡ true }
        ensures whole { result ≡ None → O.tells → O.taken out.new ≡ O.taken out.old ++ written self }
        ensures ends { IfSome result (IsStopped self.outcome (written self)
            (use_of_sink O.Sink out.old out.new)) }
        ensures later { O.faults out.old ≤ O.faults out.new }
    {
        match put_all(out, self.bytes()) {
            Ok(()) => {
                if goes_on(&self.outcome) {
                    None
                } else {
                    Some(self.outcome)
                }
            }
            Err(_) => Some(untold(self.outcome)),
        }
    }

    /// Writes it, as of a single command, and answers how the call ends.
    pub fn tell_alone<E: Sink>(self, err: &mut E) -> Outcome
        ensures ends { IsTold self.outcome (written self) (use_of_sink E.Sink err.old err.new) result }
        ensures later { E.faults err.old ≤ E.faults err.new }
    {
        match put_all(err, self.bytes()) {
            Ok(()) => self.outcome,
            Err(_) => untold(self.outcome),
        }
    }
}

fn goes_on(outcome: &Outcome) -> bool
    ensures { result ≡ goes_on outcome.now }
{
    match outcome {
        Outcome::Done | Outcome::RunFailed | Outcome::Refused(_) => true,
        _ => false,
    }
}

/// What is left of an outcome whose text couldn't be written.
pub(crate) fn untold(outcome: Outcome) -> Outcome
    ensures { result ≡ unless_told outcome }
{
    match outcome {
        Outcome::Done
        | Outcome::RunFailed
        | Outcome::Refused(_)
        | Outcome::BadWords(_)
        | Outcome::BadScript(_) => Outcome::SinkFault,
        other => other,
    }
}

fn refused_text(alloc: Global, refusal: &Refusal, status: bool) -> Result<Text, AllocError>
    ensures { IfOk result (λ text. text ≡ message_of refusal.now ++ status_line status (Refused refusal.now)) }
{
    let mut text = refusal.message(alloc)?;
    if status {
        text.extend_from_slice(b"= 1\n")?;
    }
    Ok(Text::of(text))
}

fn damaged_message(alloc: Global, name: &Text, status: bool) -> Result<Text, AllocError>
    ensures { IfOk result (λ text. text ≡ damaged_text name.now ++ status_line status (Damaged name.now)) }
{
    let mut text = Vec::from_slice(alloc, b"aegis: \"")?;
    text.extend_from_slice(name.bytes())?;
    text.extend_from_slice(b"\" is damaged\n")?;
    if status {
        text.extend_from_slice(b"= 7\n")?;
    }
    Ok(Text::of(text))
}

/// What is said of a command that ended so, with this reply if it is done. The reply has its status line already.
pub fn told_command(alloc: Global, outcome: Outcome, reply: Text, status: bool) -> Told
    requires of_command { IsOfCommand outcome }
    ensures outcome { (result.outcome ≡ outcome) ⊎ (result.outcome ≡ Memory) × TakesMemory outcome }
    ensures text { written result ≡ command_text status reply result.outcome }
{
    match outcome {
        Outcome::Done => Told {
            outcome: Outcome::Done,
            text: reply,
            status,
        },
        Outcome::RunFailed => Told {
            outcome: Outcome::RunFailed,
            text: reply,
            status,
        },
        Outcome::Refused(refusal) => match refused_text(alloc, &refusal, status) {
            Ok(text) => Told {
                outcome: Outcome::Refused(refusal),
                text,
                status,
            },
            Err(_) => Told::bare(alloc, Outcome::Memory, status),
        },
        Outcome::Damaged(name) => match damaged_message(alloc, &name, status) {
            Ok(text) => Told {
                outcome: Outcome::Damaged(name),
                text,
                status,
            },
            Err(_) => Told::bare(alloc, Outcome::Memory, status),
        },
        Outcome::DiskFault => Told::bare(alloc, Outcome::DiskFault, status),
        Outcome::SiteFault => Told::bare(alloc, Outcome::SiteFault, status),
        Outcome::Memory => Told::bare(alloc, Outcome::Memory, status),
        Outcome::BadWords(_) | Outcome::BadScript(_) | Outcome::SinkFault | Outcome::SourceFault =>
            unreachable!(),
    }
}

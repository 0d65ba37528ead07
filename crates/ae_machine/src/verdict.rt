// The answer to a command.
use ae_base::Refusal;
use ae_log::EventList;

/// A command is accepted, with the events that it makes, or refused.
#[derive(Drop)]
pub enum Verdict {
    Accept(EventList),
    Refuse(Refusal),
}

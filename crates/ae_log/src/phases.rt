// The phase into which an event takes its change, and what the history says of it.
ghost use Rattle.std.specs.Prelude.{◌≡◌};
ghost use Rattle.ae_log.specs.Phases.{phase_after, word_of};

use crate::EventKind;
use ae_base::{Phase, What};

/// The phase into which an event takes its change.
pub(crate) fn phase_after(what: &EventKind) -> Option<Phase>
    ensures { result ≡ phase_after what.now }
{
    match what {
        EventKind::New(_) | EventKind::BeginUndo => Some(Phase::AwaitingDevelopment),
        EventKind::Begin | EventKind::EndUndo | EventKind::Fail | EventKind::IFail => {
            Some(Phase::BeingDeveloped)
        }
        EventKind::End(_, to, _) => Some(*to),
        EventKind::ReviewBegin | EventKind::PassUndo => Some(Phase::BeingReviewed),
        EventKind::ReviewBeginUndo => Some(Phase::AwaitingReview),
        EventKind::Pass | EventKind::IBeginUndo => Some(Phase::AwaitingIntegration),
        EventKind::IBegin => Some(Phase::BeingIntegrated),
        EventKind::IPass => Some(Phase::Completed),
        _ => None,
    }
}

/// What the history says of an event.
pub(crate) fn word_of(what: &EventKind) -> Option<What>
    ensures { result ≡ word_of what.now }
{
    match what {
        EventKind::New(_) => Some(What::NewChange),
        EventKind::Begin => Some(What::DevelopBegin),
        EventKind::BeginUndo => Some(What::DevelopBeginUndo),
        EventKind::End(..) => Some(What::DevelopEnd),
        EventKind::EndUndo => Some(What::DevelopEndUndo),
        EventKind::ReviewBegin => Some(What::ReviewBegin),
        EventKind::ReviewBeginUndo => Some(What::ReviewBeginUndo),
        EventKind::Pass => Some(What::ReviewPass),
        EventKind::PassUndo => Some(What::ReviewPassUndo),
        EventKind::Fail => Some(What::ReviewFail),
        EventKind::IBegin => Some(What::IntegrateBegin),
        EventKind::IBeginUndo => Some(What::IntegrateBeginUndo),
        EventKind::IPass => Some(What::IntegratePass),
        EventKind::IFail => Some(What::IntegrateFail),
        _ => None,
    }
}

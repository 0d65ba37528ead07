// What holds of a change in each phase.
ghost use Rattle.std.specs.Prelude.{◌≡◌};
ghost use Rattle.ae_types.specs.Phases.{is_awaiting_development, is_integrating, is_completed, is_reviewed, may_be_reviewing, has_integrator, holds_locks, is_remove};

use ae_base::{Action, Phase};

pub(crate) fn is_awaiting_development(phase: Phase) -> bool
    ensures { result ≡ is_awaiting_development phase }
{
    matches!(phase, Phase::AwaitingDevelopment)
}

pub(crate) fn is_integrating(phase: Phase) -> bool
    ensures { result ≡ is_integrating phase }
{
    matches!(phase, Phase::BeingIntegrated)
}

pub(crate) fn is_completed(phase: Phase) -> bool
    ensures { result ≡ is_completed phase }
{
    matches!(phase, Phase::Completed)
}

pub(crate) fn is_reviewed(phase: Phase) -> bool
    ensures { result ≡ is_reviewed phase }
{
    matches!(
        phase,
        Phase::AwaitingIntegration | Phase::BeingIntegrated | Phase::Completed
    )
}

pub(crate) fn may_be_reviewing(phase: Phase) -> bool
    ensures { result ≡ may_be_reviewing phase }
{
    matches!(phase, Phase::BeingReviewed) || is_reviewed(phase)
}

pub(crate) fn has_integrator(phase: Phase) -> bool
    ensures { result ≡ has_integrator phase }
{
    matches!(phase, Phase::BeingIntegrated | Phase::Completed)
}

pub(crate) fn holds_locks(phase: Phase) -> bool
    ensures { result ≡ holds_locks phase }
{
    matches!(
        phase,
        Phase::AwaitingReview
            | Phase::BeingReviewed
            | Phase::AwaitingIntegration
            | Phase::BeingIntegrated
    )
}

pub(crate) fn is_remove(action: Action) -> bool
    ensures { result ≡ is_remove action }
{
    matches!(action, Action::Remove)
}

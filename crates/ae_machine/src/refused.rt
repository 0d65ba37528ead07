// Why a command isn't done.
ghost use Rattle.std.specs.Prelude.{◌≡◌, Option, IfOk};
ghost use Rattle.ae_base.specs.declared.refusal.Refusal.{Refusal};
ghost use Rattle.ae_policy.specs.Making.{IsPermission};
ghost use Rattle.ae_machine.specs.declared.refused.Refused.TheVariants.{Because, Memory};
ghost use Rattle.ae_machine.specs.Refused.{Answers, refused_by};

use ae_base::Refusal;
use ae_policy::PolicyError;
use std::alloc::AllocError;

/// Why a command isn't done: a condition refuses it, or memory runs out.
#[derive(Drop)]
pub(crate) enum Refused {
    Because(Refusal),
    Memory,
}

impl From<Refusal> for Refused {
    ghost from_gives = { λ refusal refused. refused ≡ Because refusal };

    fn from(refusal: Refusal) -> Refused {
        Refused::Because(refusal)
    }
}

impl From<AllocError> for Refused {
    ghost from_gives = { λ _ refused. refused ≡ Memory };

    fn from(_error: AllocError) -> Refused {
        Refused::Memory
    }
}

impl From<PolicyError> for Refused {
    ghost from_gives = { λ error refused. refused ≡ refused_by error };

    fn from(error: PolicyError) -> Refused {
        match error {
            PolicyError::Refused(refusal) => Refused::Because(refusal),
            PolicyError::Memory => Refused::Memory,
        }
    }
}

/// Refused for the reason that is given.
pub(crate) fn refuse(reason: Option<Refusal>) -> Result<(), Refusal>
    ensures { IsPermission reason result }
{
    match reason {
        Some(refusal) => Err(refusal),
        None => Ok(()),
    }
}

/// The refusal that the conditions answered, where they refused.
pub(crate) fn reason_in(answer: Result<(), Refused>) -> Result<Option<Refusal>, AllocError>
    ensures { (reason : Option Refusal) → Answers reason answer → IfOk result (λ refusal. refusal ≡ reason) }
{
    match answer {
        Ok(()) => Ok(None),
        Err(Refused::Because(refusal)) => Ok(Some(refusal)),
        Err(Refused::Memory) => Err(AllocError),
    }
}

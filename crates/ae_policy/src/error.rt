// Why a role isn't changed.
ghost use Rattle.std.specs.Prelude.{◌≡◌};
ghost use Rattle.ae_policy.specs.declared.error.PolicyError.TheVariants.{Memory};

use ae_base::Refusal;
use std::alloc::AllocError;
use thiserror::Error;

/// Why a role isn't changed: it is refused, or memory runs out.
#[derive(Debug, Drop, Error)]
pub enum PolicyError {
    #[error("{0}")]
    Refused(Refusal),
    #[error("out of memory")]
    Memory,
}

impl From<AllocError> for PolicyError {
    ghost from_gives = { λ _ error. error ≡ Memory };

    fn from(_error: AllocError) -> PolicyError {
        PolicyError::Memory
    }
}

// Why records are no state.
ghost use Rattle.std.specs.Prelude.{◌≡◌};
ghost use Rattle.ae_rules.specs.declared.error.CheckError.TheVariants.{Memory};

use ae_types::Blame;
use std::alloc::AllocError;
use thiserror::Error;

/// Why records are no state: a state file breaks a rule first, or memory runs out.
#[derive(Debug, Drop, Error)]
pub enum CheckError {
    #[error("a state file breaks a rule of the records")]
    Blamed(Blame),
    #[error("out of memory")]
    Memory,
}

impl From<AllocError> for CheckError {
    ghost from_gives = { λ _ error. error ≡ Memory };

    fn from(_error: AllocError) -> CheckError {
        CheckError::Memory
    }
}

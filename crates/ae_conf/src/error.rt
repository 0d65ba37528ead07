// Why a file of a user wasn't read.
ghost use Rattle.std.specs.Prelude.{◌≡◌};
ghost use Rattle.ae_conf.specs.declared.error.ConfError.TheVariants.{Memory};

use std::alloc::AllocError;
use thiserror::Error;

/// Why a file of a user wasn't read. A line above 4,294,967,295 is given as that number.
#[derive(Debug, Drop, Error)]
pub enum ConfError {
    /// The line of the first token that can't stand there, or where the bytes are a text, of the first known field whose
    /// value is of a wrong kind.
    #[error("line {0}")]
    Line(u32),
    #[error("out of memory")]
    Memory,
}

impl From<AllocError> for ConfError {
    ghost from_gives = { λ _ error. error ≡ Memory };

    fn from(_error: AllocError) -> ConfError {
        ConfError::Memory
    }
}

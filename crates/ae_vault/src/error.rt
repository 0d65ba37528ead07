// Why a disk isn't opened.
ghost use Rattle.std.specs.Prelude.{◌≡◌};
ghost use Rattle.ae_vault.specs.declared.error.VaultError.TheVariants.{DiskFault, Memory};
ghost use Rattle.ae_vault.specs.Errors.{read_error};

use ae_outside::{Failed, ReadError};
use std::alloc::{AllocError, AllocFailed};
use thiserror::Error;

/// Why a disk isn't opened.
#[derive(Clone, Copy, Debug, PartialEq, Eq, Error)]
pub enum VaultError {
    /// A call of the disk failed.
    #[error("disk fault")]
    DiskFault,
    /// The gate is open, and the body isn't in its grammar.
    #[error("the body is damaged")]
    Damaged,
    #[error("out of memory")]
    Memory,
}

impl From<Failed> for VaultError {
    ghost from_gives = { λ _ e. e ≡ DiskFault };

    fn from(_: Failed) -> VaultError {
        VaultError::DiskFault
    }
}

impl From<ReadError> for VaultError {
    ghost from_gives = { λ r e. e ≡ read_error r };

    fn from(e: ReadError) -> VaultError {
        match e {
            ReadError::Failed => VaultError::DiskFault,
            ReadError::Memory => VaultError::Memory,
        }
    }
}

impl From<AllocError> for VaultError {
    ghost from_gives = { λ _ e. e ≡ Memory };

    fn from(_: AllocError) -> VaultError {
        VaultError::Memory
    }
}

impl<T: Drop> From<AllocFailed<T>> for VaultError {
    ghost from_gives = { λ _ e. e ≡ Memory };

    fn from(_: AllocFailed<T>) -> VaultError {
        VaultError::Memory
    }
}

// Why a step of loading stops.
ghost use Rattle.std.specs.Prelude.{◌≡◌};
ghost use Rattle.ae_store.specs.declared.stop.Stop.TheVariants.{Memory};
ghost use Rattle.ae_store.specs.Steps.{stop_reading};

use ae_outside::ReadError;
use ae_types::Blame;
use std::alloc::{AllocError, AllocFailed};

/// Why a step of loading stops: the file to blame, or what kept it from being read.
#[derive(Clone, Copy)]
pub(crate) enum Stop {
    Blamed(Blame),
    DiskFault,
    Memory,
}

impl From<ReadError> for Stop {
    ghost from_gives = { λ r e. e ≡ stop_reading r };

    fn from(error: ReadError) -> Stop {
        match error {
            ReadError::Failed => Stop::DiskFault,
            ReadError::Memory => Stop::Memory,
        }
    }
}

impl From<AllocError> for Stop {
    ghost from_gives = { λ _ e. e ≡ Memory };

    fn from(_: AllocError) -> Stop {
        Stop::Memory
    }
}

impl<T: Drop> From<AllocFailed<T>> for Stop {
    ghost from_gives = { λ _ e. e ≡ Memory };

    fn from(_: AllocFailed<T>) -> Stop {
        Stop::Memory
    }
}

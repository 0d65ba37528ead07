// All rules are tested, and the state is made.
ghost use Rattle.ae_store.specs.Steps.{IsChecked};

use crate::stop::Stop;
use ae_rules::{CheckError, state_of};
use ae_types::{Parts, State};
use std::alloc::Global;

/// The state of these records, where they keep the rules.
pub(crate) fn checked(alloc: Global, parts: Parts) -> Result<State, Stop>
    ensures { IsChecked parts result }
{
    match state_of(alloc, parts) {
        Ok(state) => Ok(state),
        Err(CheckError::Blamed(blame)) => Err(Stop::Blamed(blame)),
        Err(CheckError::Memory) => Err(Stop::Memory),
    }
}

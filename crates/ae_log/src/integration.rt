// The integration of a change begins, and is given back.
ghost use Rattle.std.specs.Prelude.{◌≡◌};
ghost use Rattle.ae_base.specs.declared.words.Ground.TheVariants.{Integrate};
ghost use Rattle.ae_log.specs.After.{without_runs};

use crate::runs::drop_runs;
use ae_base::{Ground, User};
use ae_types::Change;
use std::alloc::Global;

/// The change gets this integrator, or none where its integration is given back, with none of its runs.
pub(crate) fn set_integrator(alloc: Global, change: &mut Change, integrator: Option<User>)
    ensures { change.new ≡ record change.old { integrator = integrator; evidence = without_runs Integrate change.old.evidence } }
{
    change.integrator = integrator;
    drop_runs(alloc, &mut change.evidence, Ground::Integrate);
}

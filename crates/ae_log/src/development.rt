// The development of a change begins, and is given back.
ghost use Rattle.std.specs.Prelude.{◌≡◌, []};
ghost use Rattle.ae_base.specs.declared.words.Ground.TheVariants.{Develop};
ghost use Rattle.ae_log.specs.After.{without_runs};

use crate::runs::drop_runs;
use ae_base::{Ground, User};
use ae_types::{Change, ChangeFileList};
use std::alloc::Global;

/// The change gets this developer, or none where its development is given back, with no files and none of its runs.
pub(crate) fn set_developer(alloc: Global, change: &mut Change, developer: Option<User>)
    ensures { change.new ≡ record change.old { developer = developer; files = []; evidence = without_runs Develop change.old.evidence } }
{
    change.developer = developer;
    change.files = ChangeFileList::new(alloc);
    drop_runs(alloc, &mut change.evidence, Ground::Develop);
}

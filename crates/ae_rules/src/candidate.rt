// The candidate of a change that is being integrated.
ghost use Rattle.std.specs.Prelude.{◌≡◌};
ghost use Rattle.std.specs.List.{list_all};
ghost use Rattle.ae_types.specs.Rules.{candidate_fits};
ghost use Rattle.ae_types.specs.Sound.{AreRows, IsGoodChange, AreChanges};

use crate::clashes::none_clash;
use crate::phases::is_integrating;
use ae_base::ChangeNo;
use ae_types::{Change, FileRow};

fn candidate_fits(deltas: usize, rows: &[FileRow], change: &Change) -> bool
    requires rows { AreRows deltas rows.now }
    requires change { IsGoodChange change.now }
    ensures { result ≡ candidate_fits deltas rows.now change.now }
{
    !is_integrating(change.phase) || none_clash(deltas, rows, Some(change))
}

pub(crate) fn candidates_fit(
    deltas: usize,
    rows: &[FileRow],
    numbers: &[ChangeNo],
    changes: &[Change],
) -> bool
    requires rows { AreRows deltas rows.now }
    requires changes { AreChanges numbers.now changes.now }
    ensures { result ≡ list_all (candidate_fits deltas rows.now) changes.now }
{
    for change in changes {
        if !candidate_fits(deltas, rows, change) {
            return false;
        }
    }
    true
}

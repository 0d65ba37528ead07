// At most one change is being integrated.
ghost use Rattle.std.specs.Prelude.{◌≡◌, length};
ghost use Rattle.ae_types.specs.Rules.{integrating, integration_fits};

use crate::phases::is_integrating;
use ae_base::limits::MOST_DELTAS;
use ae_types::Change;

fn integrating_count(changes: &[Change]) -> usize
    ensures { result ≡ length (integrating changes.now) }
{
    let mut count = 0;
    for change in changes {
        if is_integrating(change.phase) {
            count += 1;
        }
    }
    count
}

// And where one is, there is room for its delta.
pub(crate) fn integration_fits(deltas: usize, changes: &[Change]) -> bool
    ensures { result ≡ integration_fits deltas changes.now }
{
    let count = integrating_count(changes);
    count <= 1 && (count == 0 || deltas < MOST_DELTAS)
}

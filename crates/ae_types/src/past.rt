// What deltas made of a file.
ghost use Rattle.std.specs.Prelude.{◌≡◌, option_copied};
ghost use Rattle.ae_types.specs.Trees.{last_up_to};

use crate::FileVersion;

/// The last entry of a past up to the delta of this number.
pub fn entry_at(past: &[FileVersion], delta: usize) -> Option<&FileVersion>
    ensures { option_copied result ≡ last_up_to delta past.now }
{
    let mut last = None;
    for entry in past {
        if usize::from(entry.delta.number()) <= delta {
            last = Some(entry);
        }
    }
    last
}

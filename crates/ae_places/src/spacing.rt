// The space that the versions of a state leave.
ghost use Rattle.std.specs.Prelude.{◌≡◌, map, filter, IfOk};
ghost use Rattle.ae_types.specs.Versions.{live, units, has_units};
ghost use Rattle.ae_space.specs.Gaps.{Leaves};
ghost use Rattle.ae_places.specs.Placing.{extent_of, extents};

use ae_space::{Extent, ExtentList, Space};
use ae_types::{State, VersionRef, live};
use std::alloc::{AllocError, Global};

fn has_units(version: &VersionRef) -> bool
    ensures { result ≡ has_units version.now }
{
    0 < version.length
}

fn extent_of(version: &VersionRef) -> Extent
    ensures { result ≡ extent_of version.now }
{
    Extent {
        at: version.at,
        units: (u64::from(version.length) + 63) / 64,
    }
}

// The units of the versions that have some.
fn extents_of(alloc: Global, versions: &[VersionRef]) -> Result<Vec<Extent>, AllocError>
    ensures { IfOk result (λ extents. extents.items ≡ map extent_of (filter has_units versions.now)) }
{
    let mut extents = Vec::new(alloc);
    for version in versions {
        if has_units(version) {
            extents.push(extent_of(version))?;
        }
    }
    Ok(extents)
}

/// The space that the versions leave which the records name.
pub fn space_of(alloc: Global, state: &State) -> Result<Space, AllocError>
    ensures { IfOk result (λ space. Leaves (extents state.now) space) }
{
    state.note_sound();
    let versions = live(alloc, state.files(), state.changes())?;
    let extents = extents_of(alloc, versions.as_slice())?;
    Space::of_live(alloc, &ExtentList::of(extents))
}

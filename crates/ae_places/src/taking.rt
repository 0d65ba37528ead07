// The files of a tree get their places.
ghost use Rattle.std.specs.Prelude.{◌≡◌, ◌≤◌, ◌++◌, Some, None, All, IfOk, IfSome, OnOk, IsErrOf};
ghost use Rattle.std.specs.Option.{option_to_list};
ghost use Rattle.ae_base.specs.Limits.{most_units};
ghost use Rattle.ae_types.specs.Frozen.{present};
ghost use Rattle.ae_space.specs.Gaps.{WhateverLeft};
ghost use Rattle.ae_places.specs.Placing.{units_of, places_of, TakesPlaces, HaveNoPlaces};

use ae_base::{Path, Text};
use ae_space::{Space, SpaceError};
use std::alloc::{AllocError, Global};

/// How many units hold the bytes.
pub fn units_of(bytes: &[u8]) -> u64
    ensures { result ≡ units_of bytes.now }
{
    (bytes.len() as u64 + 63) / 64
}

// The place of the bytes of a file, where there are any.
fn take_place(space: &mut Space, bytes: &Option<Text>) -> Result<Option<u64>, SpaceError>
    ensures taken { IfOk result (λ place. WhateverLeft space.old (λ taken. TakesPlaces taken (option_to_list bytes.now) space.new (option_to_list place))) }
    ensures inside { IfOk result (λ place. IfSome place (λ at. at ≤ most_units)) }
    ensures full { IsErrOf result SpaceError.Full → WhateverLeft space.old (λ taken. HaveNoPlaces taken (option_to_list bytes.now)) }
{
    match bytes {
        Some(text) => {
            let extent = space.take(units_of(text.bytes()))?;
            Ok(Some(extent.at))
        }
        None => Ok(None),
    }
}

fn add(places: &mut Vec<u64>, place: Option<u64>) -> Result<(), AllocError>
    ensures { OnOk result (places.new.items ≡ places.old.items ++ option_to_list place) }
{
    if let Some(place) = place {
        places.push(place)?;
    }
    Ok(())
}

/// The places of the files of a tree, in the order of their paths: of each the lowest that is free.
pub fn take_places(
    alloc: Global,
    tree: &[(Path, Option<Text>)],
    space: &mut Space,
) -> Result<Vec<u64>, SpaceError>
    ensures places { IfOk result (λ places. WhateverLeft space.old (λ taken. places_of taken (present tree.now) ≡ Some places.items)) }
    ensures inside { IfOk result (λ places. All (λ at. at ≤ most_units) places.items) }
    // It is full exactly where one of them has no place.
    ensures full { IsErrOf result SpaceError.Full → WhateverLeft space.old (λ taken. places_of taken (present tree.now) ≡ None) }
{
    let mut places = Vec::new(alloc);
    for (_, bytes) in tree {
        let place = take_place(space, bytes)?;
        add(&mut places, place)?;
    }
    Ok(places)
}

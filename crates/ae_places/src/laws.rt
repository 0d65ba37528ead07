// What the places of a tree's versions are.
ghost use Rattle.ae_places.specs.Laws.{PlacesAreInSpace};

/// The places that are found for the files of a tree lie outside all versions that stand, and outside one another.
pub fn places_are_in_space()
    ensures { PlacesAreInSpace }
{}

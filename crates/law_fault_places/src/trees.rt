// Laws of the places of trees, each the contract of a function that does nothing.
ghost use Rattle.law_fault_places.specs.TreePlaces.{SpelledTreesAreWithin};

/// What tokens spell has its places among theirs.
pub fn spelled_trees_are_within()
    ensures { SpelledTreesAreWithin }
{}

// The law of the places of the faults of names and size, the contract of a function that does nothing.
ghost use Rattle.law_fault_places.specs.NameFaultPlaces.{NameFaultsAreWithin};

/// The first fault of names or size stands among the places of the tree.
pub fn name_faults_are_within()
    ensures { NameFaultsAreWithin }
{}

// The law of the places of the faults of kinds, the contract of a function that does nothing.
ghost use Rattle.law_fault_places.specs.KindFaultPlaces.{KindFaultsAreWithin};

/// The first fault of kinds, ranges or sets stands among the places of the tree.
pub fn kind_faults_are_within()
    ensures { KindFaultsAreWithin }
{}

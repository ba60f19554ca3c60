// Laws of the places of the faults of splits and uses, each the contract of a function that does nothing.
ghost use Rattle.law_fault_places.specs.ProofFaultPlaces.{SplitFaultsAreWithin, UseFaultsAreWithin};

/// The first fault of splits stands among the places of the design.
pub fn split_faults_are_within()
    ensures { SplitFaultsAreWithin }
{}

/// The first fault of uses stands among the places of the design.
pub fn use_faults_are_within()
    ensures { UseFaultsAreWithin }
{}

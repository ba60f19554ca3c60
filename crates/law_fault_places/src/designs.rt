// Laws of the places of the faults of flattened texts and designs, each the contract of a function that does nothing.
ghost use Rattle.law_fault_places.specs.DesignFaultPlaces.{SingleFaultsAreWithin, DesignFaultsAreWithin, SetFaultsAreWithin};

/// The first fault of single assignment stands among the places of the flattened text.
pub fn single_faults_are_within()
    ensures { SingleFaultsAreWithin }
{}

/// The first fault of loops and layers stands among the places of the design.
pub fn design_faults_are_within()
    ensures { DesignFaultsAreWithin }
{}

/// The first fault of set types stands among the places of the flattened text.
pub fn set_faults_are_within()
    ensures { SetFaultsAreWithin }
{}

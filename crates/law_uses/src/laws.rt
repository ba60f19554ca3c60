// Laws of the definitions, each the contract of a function that does nothing.
ghost use Rattle.law_uses.specs.Laws.{OneChoiceEach, ChoicesAreThere, OwnIsNoPick, ChoicesAreOfOnes};

/// Each leaf has a choice. It names families, definitions, claims and set types that are there.
pub fn choices_are_there()
    ensures each { OneChoiceEach }
    ensures there { ChoicesAreThere }
{}

/// A use of the leaf's own map is no pick. Where a design has no fault of uses and its leaves have names apart, a choice has at most one pick of each family and assumes a claim once.
pub fn choices_are_of_ones()
    ensures own { OwnIsNoPick }
    ensures ones { ChoicesAreOfOnes }
{}

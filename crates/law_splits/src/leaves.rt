// Laws of the definitions, each the contract of a function that does nothing.
ghost use Rattle.law_splits.specs.SplitLaws.{LeavesAreSplit, GuardsAreMet, EquationsKeepOutcomes, OneLeafEach, LeavesAreEnds};

/// Where a design has no fault of splits, each of its leaves has the unit's parameters and then those that the splits add, and guards of these, each reading only the parameters before its own.
pub fn leaves_are_split()
    ensures split { LeavesAreSplit }
    ensures each { OneLeafEach }
{}

/// Where names are apart, no split is of a leaf.
pub fn leaves_are_ends()
    ensures { LeavesAreEnds }
{}

/// For each state and all values of a unit's parameters, some values of those that its splits add meet all guards of its leaf.
pub fn guards_are_met()
    ensures { GuardsAreMet }
{}

/// An equation has in the leaf the outcome that it has at the values of the split's own variables.
pub fn equations_keep_outcomes()
    ensures { EquationsKeepOutcomes }
{}

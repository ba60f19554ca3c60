// Laws of the definitions, each the contract of a function that does nothing.
ghost use Rattle.law_problems.specs.Laws.{ProblemsAreWellFormed};

/// The problem of each case of a leaf is one that the calls take.
pub fn problems_are_well_formed()
    ensures { ProblemsAreWellFormed }
{}

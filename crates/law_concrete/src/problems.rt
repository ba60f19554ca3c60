// The law of problems at given sizes, the contract of a function that does nothing.
ghost use Rattle.law_concrete.specs.Laws.{ConcreteProblemsAreWellFormed};

/// The problem of each case of a unit at given sizes is one that the calls take, where it has few bits.
pub fn concrete_problems_are_well_formed()
    ensures { ConcreteProblemsAreWellFormed }
{}

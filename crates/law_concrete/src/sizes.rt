// The law of sizes that are given, the contract of a function that does nothing.
ghost use Rattle.law_concrete.specs.Laws.{GivenAreSizes};

/// As many sizes of at least 1 as there are set types without one are sizes of the design.
pub fn given_are_sizes()
    ensures { GivenAreSizes }
{}

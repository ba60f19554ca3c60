// Laws of paths and rings.
ghost use Rattle.smv_rings.specs.Laws.{AreRings, RingsGrow, EqualRingsEnd, FewRingsDiffer, LeastPathsPass, PathsViolate, InductiveSetsHold};

/// The rings of the schedule are the rings of paths.
pub fn rings_of_paths()
    ensures { AreRings }
{}

/// Each ring is within the next one.
pub fn rings_grow()
    ensures { RingsGrow }
{}

/// Behind two equal rings there is no violating path of any length, if none was there before.
pub fn equal_rings_end()
    ensures { EqualRingsEnd }
{}

/// Over m bits fewer than 2^m rings differ from the next one.
pub fn few_rings_differ()
    ensures { FewRingsDiffer }
{}

/// A violating path of least length passes through the rings.
pub fn least_paths_pass()
    ensures { LeastPathsPass }
{}

/// A state ends a violating path exactly where a list of states is one that ends in it.
pub fn paths_violate()
    ensures { PathsViolate }
{}

/// An inductive set leaves no violating path of any length.
pub fn inductive_sets_hold()
    ensures { InductiveSetsHold }
{}

// Laws of inductive sets.
ghost use Rattle.smv_inductive.specs.Laws.{EqualRingsAreInductive};

/// A ring that equals the next one is inductive, if no violating path leads through the rings so far.
pub fn equal_rings_are_inductive()
    ensures { EqualRingsAreInductive }
{}

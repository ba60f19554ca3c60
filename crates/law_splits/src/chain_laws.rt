// Laws, each the contract of a function that does nothing.
ghost use Rattle.law_splits.specs.Chains.{LeadsAtLast, TypesTell};

/// A split that leads to a unit in one split more than the design has leads to one in as many.
pub fn stable()
    ensures { LeadsAtLast }
{}

/// What splits show of the parameters before them is told by the types of these.
pub fn by_types()
    ensures { TypesTell }
{}

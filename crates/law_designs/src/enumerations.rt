// The law of the lists of constants, the contract of a function that does nothing.
ghost use Rattle.law_designs.specs.Owned.{SignalsAreOwned};

/// Each signal of a text without faults of names that is of an enumeration has the list to which the first constant of the enumeration belongs.
pub fn signals_are_owned()
    ensures { SignalsAreOwned }
{}

// The laws of bounds, each the contract of a function that does nothing.
ghost use Rattle.law_bounds.specs.BoundsHold.{BoundsHold};
ghost use Rattle.law_bounds.specs.ConstantsStay.{ConstantsStay};

/// A number that an expression comes out as is within its bounds.
pub fn bounds_hold()
    ensures { BoundsHold }
{}

/// What is made of constants alone comes out the same at each time.
pub fn constants_stay()
    ensures { ConstantsStay }
{}

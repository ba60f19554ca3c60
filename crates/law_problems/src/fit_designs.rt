// Laws of flattened texts and their designs, each the contract of a function that does nothing.
ghost use Rattle.law_problems.specs.Fit.{DesignsAreFit, SplitsAreKinded, SizesAreFew, ConstantsAreDistinct};

/// The design of a flattened text without a fault of kinds and of set types is fit, its splits are kinded, and its set types have few values.
pub fn designs_are_fit()
    ensures fit { DesignsAreFit }
    ensures splits { SplitsAreKinded }
    ensures sizes { SizesAreFew }
{}

/// In a text without a fault of names the constants of each enumeration are distinct.
pub fn constants_are_distinct()
    ensures { ConstantsAreDistinct }
{}

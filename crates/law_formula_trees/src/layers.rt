// Laws of the definitions of monitors, each the contract of a function that does nothing.
ghost use Rattle.law_formula_trees.specs.Behind.{MonitorsAreDefined, OthersAreNot, MonitorsAreRead};

/// The definition of a monitor gives its element at the values of the parameters what its right side allows there.
pub fn monitors_are_defined()
    ensures { MonitorsAreDefined }
{}

/// It gives nothing to an element of another family.
pub fn others_are_not()
    ensures { OthersAreNot }
{}

/// A reference to a monitor reads its element at the values of the parameters.
pub fn monitors_are_read()
    ensures { MonitorsAreRead }
{}

// Laws of the definitions, each the contract of a function that does nothing.
ghost use Rattle.law_problems.specs.Kinded.{EquationsKeepKinds, EquationsKeepOrders, GuardsHaveKinds};

/// An equation has in its leaf the kind that it has at the split's own variables, and keeps orders there exactly where it keeps them here.
pub fn equations_keep_kinds()
    ensures kinds { EquationsKeepKinds }
    ensures orders { EquationsKeepOrders }
{}

/// Where a design has no fault of splits and the equations of its splits have kinds and keep orders, each guard of a leaf has a kind and keeps orders.
pub fn guards_have_kinds()
    ensures { GuardsHaveKinds }
{}

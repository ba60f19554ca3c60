// Laws of the definitions, each the contract of a function that does nothing.
ghost use Rattle.law_meaning.specs.Laws.{DefinitionsAreExchanged, ClaimsAreExchanged, MapsAreExchanged};

/// Exchanging the values of scalarsets throughout exchanges them in what a definition allows an element and changes nothing else, where no assignments of the
/// definition set conflict and each left side has its `forall` variables.
pub fn definitions_are_exchanged()
    ensures { DefinitionsAreExchanged }
{}

/// Where a unit's instance holds, the exchanged instance holds in the exchanged states.
pub fn units_are_exchanged()
    ensures claims { ClaimsAreExchanged }
    ensures maps { MapsAreExchanged }
{}

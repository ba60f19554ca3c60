// Laws of the definitions, each the contract of a function that does nothing.
ghost use Rattle.law_reports.specs.PlanLaws.{PartsAreEntries, CasesAreOfScripts, UnitsAreToldByCases};

/// A leaf and its choice are those of the entry at their place.
pub fn parts_are_entries()
    ensures { PartsAreEntries }
{}

/// With the leaf's times its cases are those of the script, and what is told by them is told of the unit.
pub fn units_are_told_by_cases()
    ensures cases { CasesAreOfScripts }
    ensures told { UnitsAreToldByCases }
{}

// Laws of the definitions, each the contract of a function that does nothing.
ghost use Rattle.smv_cases.specs.Laws.{CasesGrow, SlotsGrow};

/// The cases of a leaf are those that grow one parameter after the other.
pub fn cases_grow()
    ensures cases { CasesGrow }
    ensures slots { SlotsGrow }
{}

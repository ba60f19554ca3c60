// Laws of the definitions, each the contract of a function that does nothing.
ghost use Rattle.law_obligations.specs.Scripts.{CasesAreCases, ProvedByCases};

/// Each case of a checked script is one of which the laws of bits speak.
pub fn cases_are_cases()
    ensures cases { CasesAreCases }
    ensures proved { ProvedByCases }
{}

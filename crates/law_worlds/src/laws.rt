// Laws of the definitions, each the contract of a function that does nothing.
ghost use Rattle.law_worlds.specs.Laws.{WorldsOfCases, ExpressionsHaveOutcomes};

/// The world of a case is one of which its problem speaks.
pub fn worlds_are_of_cases()
    ensures { WorldsOfCases }
{}

/// Each expression has an outcome in each state of a case.
pub fn expressions_have_outcomes()
    ensures { ExpressionsHaveOutcomes }
{}

// Laws of the definitions, each the contract of a function that does nothing.
ghost use Rattle.law_reports.specs.ListLaws.{CaseListsAreLists, PathsAreRead, PathsAreWritten, RingsAreRead, InductionIsOfCases, InvariantsHold, NoneIsNone, LeastIsLeast};

/// The lists of a case are over its bits.
pub fn case_lists_are_lists()
    ensures { CaseListsAreLists }
{}

/// The violating paths of the lists are those of the problem.
pub fn paths_are_read()
    ensures read { PathsAreRead }
    ensures written { PathsAreWritten }
{}

/// The rings of the lists are those of the problem.
pub fn rings_are_read()
    ensures { RingsAreRead }
{}

/// The four conditions of induction over the lists are those of the case, and leave no violating path.
pub fn induction_is_of_cases()
    ensures same { InductionIsOfCases }
    ensures holds { InvariantsHold }
{}

/// What a search finds of the lists is so of the problem.
pub fn searches_are_of_cases()
    ensures none { NoneIsNone }
    ensures least { LeastIsLeast }
{}

// What the answers of the search say, each the contract of a function that does nothing.
ghost use Rattle.law_verdicts.specs.Searches.{SearchesDecide};
ghost use Rattle.law_verdicts.specs.Certified.{ClosedSetsPass};

/// What a search over the lists of a case answers says so of its problem: a closed set that it has no violating path, a depth that it has a shortest path of so many steps.
pub fn searches_decide()
    ensures { SearchesDecide }
{}

/// The set of a closed search passes the inductive check: the check may be called of it, and is true.
pub fn closed_sets_pass()
    ensures { ClosedSetsPass }
{}

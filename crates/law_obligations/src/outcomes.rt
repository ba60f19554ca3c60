// Laws of outcomes, each the contract of a function that does nothing.
ghost use Rattle.law_obligations.specs.OutcomeLaws.{ConjunctionsMix, DisjunctionsMix, ImplicationsMix, EquivalencesMix, ConjunctionsOverTypes, DisjunctionsOverTypes, MembershipsMix, SumsFold, ReadsFold, ConditionsGist, FirstResultsGist};

/// What operators may give is what they give on the truth values that are possible of their parts, one by one.
pub fn operators_mix()
    ensures conjunctions { ConjunctionsMix }
    ensures disjunctions { DisjunctionsMix }
    ensures implications { ImplicationsMix }
    ensures equivalences { EquivalencesMix }
{}

/// A quantifier takes an outcome at each number and class, and any part of those at the rests.
pub fn quantifiers_mix()
    ensures conjunctions { ConjunctionsOverTypes }
    ensures disjunctions { DisjunctionsOverTypes }
{}

/// `in` chooses its left part once, and then an outcome of each member.
pub fn memberships_mix()
    ensures { MembershipsMix }
{}

/// Sums and reads go part by part.
pub fn parts_fold()
    ensures sums { SumsFold }
    ensures reads { ReadsFold }
{}

/// What a definition may give one element is known by three truth values: whether Nothing is possible, whether a result is, and whether one that passes a test is.
pub fn definitions_gist()
    ensures conditions { ConditionsGist }
    ensures firsts { FirstResultsGist }
{}

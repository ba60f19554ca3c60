// Laws of the definitions, each the contract of a function that does nothing.
ghost use Rattle.law_verdicts.specs.Invariants.{TrueCasesHaveInvariants, TrueResultsHaveInvariants, TrueReportsHaveInvariants};

/// Where a verdict is true, each case of its unit has a set of states that meets the four conditions of induction: of a case that is true, of a unit that is told true, and so in a report.
pub fn true_verdicts_have_invariants()
    ensures cases { TrueCasesHaveInvariants }
    ensures units { TrueResultsHaveInvariants }
    ensures reports { TrueReportsHaveInvariants }
{}

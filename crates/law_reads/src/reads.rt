// Laws of the definitions, each the contract of a function that does nothing.
ghost use Rattle.law_reads.specs.Laws.{OutcomesAreSame, AllowedMayBeSame, AllowedMustBeSame, ResultsAreSame, DemandsAreSame, TargetsAreSame};

/// What an expression may be is the same in states that tell the same of the elements that it reads.
pub fn outcomes_are_same()
    ensures { OutcomesAreSame }
{}

/// So are what a right side may allow, and what it allows for certain.
pub fn right_sides_are_same()
    ensures may { AllowedMayBeSame }
    ensures must { AllowedMustBeSame }
{}

/// The possible results of a definition for an element are the same, as far as tests tell, where right sides that read the same give the same.
pub fn results_are_same<X>()
    ensures { ResultsAreSame X }
{}

/// A demand is met alike in states, and behind states, that tell the same of what it reads; one that is of the state now alone, behind whatever states.
pub fn demands_are_same()
    ensures { DemandsAreSame }
{}

/// Guards may hold and the target is broken alike.
pub fn targets_are_same()
    ensures { TargetsAreSame }
{}

// Laws of verdicts.
ghost use Rattle.law_events.specs.Laws.{OneVerdict, ToggleCounts};

/// A case has at most one verdict for its budgets.
pub fn one_verdict()
    ensures { OneVerdict }
{}

/// The counts of a case that was worked out by hand.
pub fn worked_toggle()
    ensures { ToggleCounts }
{}

// Worked texts, each group a clause of a function that does nothing.
ghost use Rattle.worked_texts.specs.PlanFaults as texts;

/// The first fault of the rules of proof of each worked text.
pub fn worked_faults()
    ensures passes { texts.AreFound texts.passes }
    ensures leaves { texts.AreFound texts.leaves }
{}

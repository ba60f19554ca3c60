// Worked texts, each group a clause of a function that does nothing.
ghost use Rattle.worked_texts.specs.Right.{small};
ghost use Rattle.worked_texts.specs.Tomasulo.{machine};
ghost use Rattle.worked_texts.specs.SingleAssignmentWorked.{AreDesigned, AreFound, HasWholeLeftSides, defs, heads, whole};
ghost use Rattle.worked_texts.specs.WorkedDesigns as designs;
ghost use Rattle.worked_texts.specs.WorkedFaults as texts;

/// The first fault of single assignment of each worked text.
pub fn worked_faults()
    ensures rows { AreFound texts.rows }
    ensures branches { AreFound texts.branches }
    ensures constants { AreFound texts.constants }
    ensures kinds_and_sets { AreFound texts.kinds_and_sets }
    ensures loops { AreFound texts.loops }
    ensures shared_variables { AreFound texts.shared_variables }
    ensures beside { AreFound texts.beside }
    ensures variables { AreFound texts.variables }
    ensures claims { AreFound texts.claims }
    ensures instances { AreFound texts.instances }
    ensures first { AreFound texts.first }
    ensures other_passes { AreFound texts.other_passes }
    ensures tomasulo { AreFound texts.tomasulo }
{}

/// The definitions, or the whole design, of each worked text.
pub fn worked_designs()
    ensures definitions { AreDesigned defs designs.definitions }
    ensures heads { AreDesigned heads designs.heads }
    ensures designs { AreDesigned whole designs.designs }
{}

/// Texts meet the condition of the laws of conflicts: no left side has more indexes than its family.
pub fn conditions_are_met()
    ensures small { HasWholeLeftSides small }
    ensures tomasulo { HasWholeLeftSides machine }
{}

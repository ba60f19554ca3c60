// Worked texts, each group a clause of a function that does nothing.
ghost use Rattle.worked_texts.specs.SplitsWorked.{AreFound, HaveLeaves, AreHeld};
ghost use Rattle.worked_texts.specs.SplitFaults as texts;
ghost use Rattle.worked_texts.specs.WorkedLeaves as leaves;

/// The first fault of splits of each worked text.
pub fn worked_faults()
    ensures rows { AreFound texts.rows }
    ensures of { AreFound texts.of }
    ensures again { AreFound texts.again }
    ensures astray { AreFound texts.astray }
    ensures counts { AreFound texts.counts }
    ensures unbound { AreFound texts.unbound }
    ensures doubled { AreFound texts.doubled }
    ensures types { AreFound texts.types }
    ensures equations { AreFound texts.equations }
    ensures kinds { AreFound texts.kinds }
    ensures strays { AreFound texts.strays }
    ensures instances { AreFound texts.instances }
    ensures first { AreFound texts.first }
    ensures tomasulo { AreFound texts.tomasulo }
{}

/// The leaves of the units of each worked text, and the guards that hold.
pub fn worked_leaves()
    ensures ends { HaveLeaves leaves.ends }
    ensures parameters { HaveLeaves leaves.parameters }
    ensures brackets { HaveLeaves leaves.brackets }
    ensures guards { AreHeld leaves.guards }
{}

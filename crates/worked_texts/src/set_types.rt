// Worked texts, each group a clause of a function that does nothing.
ghost use Rattle.worked_texts.specs.SetTypesWorked.{AreFound};
ghost use Rattle.worked_texts.specs.SetTypeFaults as texts;

/// The first fault of set types of each worked text.
pub fn worked_faults()
    ensures rows { AreFound texts.rows }
    ensures comparisons { AreFound texts.comparisons }
    ensures orders { AreFound texts.orders }
    ensures within { AreFound texts.within }
    ensures lists { AreFound texts.lists }
    ensures branches { AreFound texts.branches }
    ensures labels { AreFound texts.labels }
    ensures targets { AreFound texts.targets }
    ensures indexes { AreFound texts.indexes }
    ensures loops { AreFound texts.loops }
    ensures reach { AreFound texts.reach }
    ensures first { AreFound texts.first }
    ensures tomasulo { AreFound texts.tomasulo }
{}

// Worked texts, each group a clause of a function that does nothing.
ghost use Rattle.worked_texts.specs.LoopsAndLayersWorked.{AreEdges, AreFound};
ghost use Rattle.worked_texts.specs.WorkedEdges as designs;
ghost use Rattle.worked_texts.specs.LoopFaults as texts;

/// The first fault of loops and layers of each worked text.
pub fn worked_faults()
    ensures rows { AreFound texts.rows }
    ensures loops { AreFound texts.loops }
    ensures delays { AreFound texts.delays }
    ensures indexes { AreFound texts.indexes }
    ensures sets { AreFound texts.sets }
    ensures conditions { AreFound texts.conditions }
    ensures modules { AreFound texts.modules }
    ensures base_definitions { AreFound texts.base_definitions }
    ensures reading { AreFound texts.reading }
    ensures assigning { AreFound texts.assigning }
    ensures passes { AreFound texts.passes }
    ensures tomasulo { AreFound texts.tomasulo }
{}

/// The edges of the design of each worked text.
pub fn worked_edges()
    ensures assignments { AreEdges designs.assignments }
    ensures indexes { AreEdges designs.indexes }
{}

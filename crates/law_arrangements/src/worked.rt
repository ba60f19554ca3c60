// Worked arrangements, each the contract of a function that does nothing.
ghost use Rattle.law_arrangements.specs.Worked.{Wires, Choices, OwnMaps, UsesBefore, Unread, OldWires};

/// What is determined and what is not: a wire; a choice, a rest, an index that may be outside, a signal that its own map speaks of, a use up to the time before.
pub fn worked_values()
    ensures wires { Wires }
    ensures choices { Choices }
    ensures own { OwnMaps }
    ensures before { UsesBefore }
{}

/// What is idle: an element that nothing reads; not one that a claim reads.
pub fn worked_unread()
    ensures { Unread }
{}

/// The lists of a case with a wire: old values are by old bits, and a demand of before stays.
pub fn worked_wires()
    ensures { OldWires }
{}

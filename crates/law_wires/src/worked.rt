// Worked tries, each the contract of a function that does nothing.
ghost use Rattle.law_wires.specs.Worked.{Wires, Elements, Choices, OwnReads};

/// A wire, an element of an array, a choice, and a signal that reads itself where a condition has no cell.
pub fn worked_tries()
    ensures wires { Wires }
    ensures elements { Elements }
    ensures choices { Choices }
    ensures own { OwnReads }
{}

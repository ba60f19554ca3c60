// Laws of the definitions, each the contract of a function that does nothing.
ghost use Rattle.law_wires.specs.Laws.{AlonePassesOnce, StatesAreViews, TriedAreDetermined, TriedHaveValues, LeftMayGo, WiresAreArrangements};

/// Conditions of which one holds, and each alone: exactly one holds.
pub fn alone_passes_once<X>()
    ensures { AlonePassesOnce X }
{}

/// A state in which the elements done are worked out is what its bits are read as at their places, beside the tried element and those left.
pub fn states_are_views()
    ensures { StatesAreViews }
{}

/// An element is determined where at each assignment exactly one of its values meets its demands, and that value is then its own.
pub fn tried_are_determined()
    ensures determined { TriedAreDetermined }
    ensures values { TriedHaveValues }
{}

/// An element that is left may get bits after all; where none is left, those done and the bits of all elements, in whatever order, are an arrangement.
pub fn wires_are_arrangements()
    ensures left { LeftMayGo }
    ensures arranged { WiresAreArrangements }
{}

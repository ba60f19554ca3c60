// The law of loops, the contract of a function that does nothing.
ghost use Rattle.smv_look_loops.specs.Paths.{LoopsAreFound};

/// Where a design has a fault 18 there is a loop that begins at its place.
pub fn loops_are_found()
    ensures { LoopsAreFound }
{}

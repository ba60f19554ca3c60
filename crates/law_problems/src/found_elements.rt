// Laws of the definitions, each the contract of a function that does nothing.
ghost use Rattle.law_problems.specs.FoundLaws.{PutsAdd, SortedIsWritten, FoundHasBits, ConeHasBits};

/// What is put is added, each once, as long as there are few.
pub fn puts_add()
    ensures { PutsAdd }
{}

/// The elements of a cone as they are written, in order, are the cone as it is written.
pub fn sorted_is_written()
    ensures { SortedIsWritten }
{}

/// Each element has a bit, and a list with the elements of a cone has its bits.
pub fn bits_of_cones()
    ensures each { FoundHasBits }
    ensures all { ConeHasBits }
{}

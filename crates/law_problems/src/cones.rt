// Laws of the definitions, each the contract of a function that does nothing.
ghost use Rattle.law_obligations.specs.Cones.{AbsElement};
ghost use Rattle.law_problems.specs.ConeLaws.{SearchesBegin, SearchesGoOn, SearchesEnd, SortedIsCone, ConesAreInOrder, FoundHasNoMoreBits, UncountedReadsNothing, NamedAreWritten, ChoicesAreWritten, ElementsAreWritten};

/// A search of elements that goes on from each that it finds ends with the least set.
pub fn searches_find_cones()
    ensures begin { SearchesBegin AbsElement }
    ensures go_on { SearchesGoOn AbsElement }
    ensures end { SearchesEnd AbsElement }
{}

/// The elements of a cone in order are the cone.
pub fn sorted_cones()
    ensures sorted { SortedIsCone }
    ensures in_order { ConesAreInOrder }
{}

/// Elements that are found have no more bits than the cone.
pub fn bits_of_found()
    ensures { FoundHasNoMoreBits }
{}

/// Where no assignment counts nothing is read.
pub fn what_counts()
    ensures { UncountedReadsNothing AbsElement }
{}

/// Indexes and elements are found on what is written.
pub fn elements_are_written()
    ensures named { NamedAreWritten }
    ensures choices { ChoicesAreWritten }
    ensures elements { ElementsAreWritten }
{}

// Laws of the definitions, each the contract of a function that does nothing.
ghost use Rattle.law_use_times.specs.Laws.{FirstAreNodes, FoundIsSameTime, NowByLabels, ReadsAreFamilies};

/// What a search finds from the families with which a same-time set begins, along what chosen definitions read, is the set.
pub fn same_times_are_found()
    ensures first { FirstAreNodes }
    ensures reads { ReadsAreFamilies }
    ensures found { FoundIsSameTime }
{}

/// A use is now unless the used unit stands later and is of the component of the unit that uses it.
pub fn now_by_labels()
    ensures { NowByLabels }
{}

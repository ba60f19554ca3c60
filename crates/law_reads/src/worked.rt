// Worked reading, each the contract of a function that does nothing.
ghost use Rattle.law_reads.specs.Worked.{Quantifiers, Constants, Rests, FewIndexes, NoValues, Elsewhere, LeftSides};

/// What expressions read: at the rest of a type without a class, by constants that are worked out, at a rest, and with an index too few.
pub fn worked_expressions()
    ensures quantifiers { Quantifiers }
    ensures constants { Constants }
    ensures rests { Rests }
    ensures few { FewIndexes }
{}

/// What definitions read for an element: nothing for an assignment that is known to be elsewhere, where each type has a value.
pub fn worked_definitions()
    ensures empty { NoValues }
    ensures elsewhere { Elsewhere }
    ensures lefts { LeftSides }
{}

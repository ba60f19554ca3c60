// Worked problems, the contract of a function that does nothing.
ghost use Rattle.worked_sizes.specs.WorkedSizes.{AreEqual, AreInOrder, CasesAreValues, TwiceEqual, WrittenAtLast};

/// Two signals that are equal at size 1 and not at size 2, what only the reduction cannot tell, an element of a case, an element that is written at an index, and an ordset.
pub fn worked_problems()
    ensures equal { AreEqual }
    ensures twice { TwiceEqual }
    ensures cases { CasesAreValues }
    ensures written { WrittenAtLast }
    ensures ordered { AreInOrder }
{}

// Worked texts, each group a clause of a function that does nothing.
ghost use Rattle.worked_texts.specs.Worked.{AreFound};
ghost use Rattle.worked_texts.specs.WorkedNames as names;
ghost use Rattle.worked_texts.specs.Tomasulo as machine;
ghost use Rattle.worked_texts.specs.Limits.{Fits4096, Past4096};

/// The first fault of the names or the size of each worked text: its number and its place, or none.
pub fn worked_faults()
    ensures rows { AreFound names.rows }
    ensures other_passes { AreFound names.other_passes }
    ensures what_is_declared { AreFound names.what_is_declared }
    ensures fields { AreFound names.fields }
    ensures behind_undeclared { AreFound names.behind_undeclared }
    ensures order_of_tops { AreFound names.order_of_tops }
    ensures first_counts { AreFound names.first_counts }
    ensures declared_twice { AreFound names.declared_twice }
    ensures formals { AreFound names.formals }
    ensures constants_of_lists { AreFound names.constants_of_lists }
    ensures recursion { AreFound names.recursion }
    ensures smallest_place { AreFound names.smallest_place }
    ensures sizes { AreFound names.sizes }
    ensures tomasulo { AreFound machine.rows }
{}

/// 4,096 families and instances together are within the limit, and one more is not.
pub fn worked_limits()
    ensures fits { Fits4096 }
    ensures past { Past4096 }
{}

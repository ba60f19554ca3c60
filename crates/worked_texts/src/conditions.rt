// Worked texts, each a clause of a function that does nothing.
ghost use Rattle.worked_texts.specs.Tomasulo.{machine};
ghost use Rattle.worked_texts.specs.Right.{small};
ghost use Rattle.worked_texts.specs.Meets.{MeetsConditions};

/// Texts meet the conditions of the laws: tokens spell them, and they have no fault of names, size and kinds.
pub fn conditions_are_met()
    ensures small { MeetsConditions small }
    ensures tomasulo { MeetsConditions machine }
{}

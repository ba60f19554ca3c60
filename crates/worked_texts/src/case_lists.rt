// Worked cases, each the contract of a function that does nothing.
ghost use Rattle.worked_texts.specs.CaseListsWorked.{OneBit, HighestFirst, AboveTheLast, ToggleFunctions, MovesFirst, BothUses};

/// Worked cases: bits and codes, the functions of a signal that changes at each step, and the order in which functions stand.
pub fn worked_bits()
    ensures one { OneBit }
    ensures highest { HighestFirst }
    ensures above { AboveTheLast }
    ensures toggle { ToggleFunctions }
    ensures moves { MovesFirst }
    ensures uses { BothUses }
{}

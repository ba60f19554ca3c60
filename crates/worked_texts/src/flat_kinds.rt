// Worked texts, each group a clause of a function that does nothing.
ghost use Rattle.worked_texts.specs.FlatKindsWorked.{AreAnswered, AreJudged};
ghost use Rattle.worked_texts.specs.WorkedFlatKinds as texts;

/// Whether the flattened text of each worked text, or a flattened text that no text has, keeps the rules of kinds, ranges and sets.
pub fn worked_texts()
    ensures right { AreAnswered texts.right }
    ensures operands { AreAnswered texts.operands }
    ensures references { AreAnswered texts.references }
    ensures types { AreAnswered texts.types }
    ensures sets { AreAnswered texts.sets }
    ensures places { AreAnswered texts.places }
    ensures numbers { AreJudged texts.numbers }
    ensures tomasulo { AreAnswered texts.tomasulo }
{}

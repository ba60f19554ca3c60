// Worked texts, each group a clause of a function that does nothing.
ghost use Rattle.worked_texts.specs.FlatteningWorked.{AreFlattened, families, front, items, whole};
ghost use Rattle.worked_texts.specs.WorkedTexts as texts;
ghost use Rattle.worked_texts.specs.FlatteningTomasulo as machine;
ghost use Rattle.worked_texts.specs.Tomasulo as tomasulo;
ghost use Rattle.worked_texts.specs.Right.{MeetsConditions, small};

/// The flattened text of each worked text, or the part of it that its theme is about.
pub fn worked_texts()
    ensures families { AreFlattened families texts.families }
    ensures fronts { AreFlattened front texts.fronts }
    ensures paths { AreFlattened items texts.paths }
    ensures connections { AreFlattened items texts.connections }
    ensures loops { AreFlattened items texts.loops }
    ensures switches { AreFlattened items texts.switches }
    ensures layers_and_binders { AreFlattened items texts.layers_and_binders }
    ensures expressions { AreFlattened items texts.expressions }
    ensures goals { AreFlattened items texts.goals }
    ensures wholes { AreFlattened whole texts.wholes }
    ensures tomasulo { AreFlattened families machine.rows }
{}

/// Texts meet the conditions of the laws of flattening: they have no fault of names, and each name in their statements and claims is known.
pub fn conditions_are_met()
    ensures small { MeetsConditions small }
    ensures tomasulo { MeetsConditions tomasulo.machine }
{}

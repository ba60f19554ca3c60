// Laws of texts with formulas, each the contract of a function that does nothing.
ghost use Rattle.law_formula_texts.specs.Laws.{OtherNamesAreNowhere, FormulasStandOnce, SpelledIsExact, ReadIsExact};

/// A name that is no token stands nowhere in the text that is spelled.
pub fn other_names_are_nowhere()
    ensures { OtherNamesAreNowhere }
{}

/// No two formulas stand at one offset where no two tokens do.
pub fn formulas_stand_once()
    ensures { FormulasStandOnce }
{}

/// The theorem: a text that is spelled with its formulas is sound over times exactly where its translation is sound.
pub fn spelled_is_exact()
    ensures { SpelledIsExact }
{}

/// The theorem for texts that are read.
pub fn read_is_exact()
    ensures { ReadIsExact }
{}

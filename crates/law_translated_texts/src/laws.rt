// Laws of translated texts, each the contract of a function that does nothing.
ghost use Rattle.law_translated_texts.specs.Laws.{PartsAreSpelled};

/// The parts of a formula are those of its conditions and expressions.
pub fn parts_are_spelled()
    ensures { PartsAreSpelled }
{}

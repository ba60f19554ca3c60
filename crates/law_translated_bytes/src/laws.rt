// The law of translated texts, the contract of a function that does nothing.
ghost use Rattle.law_translated_bytes.specs.Laws.{TranslationsAreSpelled};

/// The bytes of the translation of a text are read as tokens that spell the translated tree, places aside.
pub fn translations_are_spelled()
    ensures { TranslationsAreSpelled }
{}

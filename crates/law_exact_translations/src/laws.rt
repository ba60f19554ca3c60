// Laws of translations, each the contract of a function that does nothing.
ghost use Rattle.law_exact_translations.specs.Laws.{TranslationsAreOne, TranslationsAreExact};

/// A text has one translation.
pub fn translations_are_one()
    ensures { TranslationsAreOne }
{}

/// A text is sound over times exactly where the text that its translation spells is sound.
pub fn translations_are_exact()
    ensures { TranslationsAreExact }
{}

// The law of translated tokens, the contract of a function that does nothing.
ghost use Rattle.law_translated_items.specs.Laws.{TokensAreTranslated};

/// The tokens of a text are segments, whose edits are those of the translation, and all tokens of the kinds of what is written in their place spell the translated tree.
pub fn tokens_are_translated()
    ensures { TokensAreTranslated }
{}

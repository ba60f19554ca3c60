// The law of spelling, the contract of a function that does nothing.
ghost use Rattle.law_texts_spelled_alike.specs.Laws.{TextsAreSpelledAlike};

/// Tokens of the same kinds, wherever they stand, spell the same text, but for places, splits and uses.
pub fn texts_spelled_alike()
    ensures { TextsAreSpelledAlike }
{}

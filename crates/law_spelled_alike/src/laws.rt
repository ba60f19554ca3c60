// The law of spelling, the contract of a function that does nothing.
ghost use Rattle.law_spelled_alike.specs.Laws.{AreSpelledAlike, HasNoSemicolon};

/// Tokens of the same kinds, wherever they stand, spell the same expression, places aside; and no expression has a `;`.
pub fn spelled_alike()
    ensures alike { AreSpelledAlike }
    ensures without { HasNoSemicolon }
{}

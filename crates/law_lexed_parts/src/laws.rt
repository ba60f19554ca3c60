// Laws of parts, each the contract of a function that does nothing.
ghost use Rattle.law_lexed_parts.specs.Laws.{IsReadInParts, PartsAreRead, TextsAreParted, NamesBeginAlike};

/// Bytes are read as their own tokens, whatever stands behind that does not go together with them.
pub fn read_in_parts()
    ensures text { IsReadInParts }
    ensures part { PartsAreRead }
{}

/// A text is parted around any of its tokens: the bytes before them, their own, and those behind them are each read as their own tokens.
pub fn texts_are_parted()
    ensures { TextsAreParted }
{}

/// Where a name begins behind some bytes, any other name may begin there.
pub fn names_begin_alike()
    ensures { NamesBeginAlike }
{}

// Laws of the readers.
ghost use Rattle.law_formula_grammar.specs.Laws.{IsSpelledSame, IsOneText, IsAnswered, IsOnlyText, IsOnlyUnexpected, IsOnlyTooDeep};

/// A list of tokens spells at most one text with formulas.
pub fn one_text()
    ensures { IsOneText }
{}

/// What the reader answers is right: the text with its formulas that the tokens spell, fault 5 at the first token or end after which no text can go on,
/// or fault 6 at the first token that opens a level too many.
pub fn right_answer()
    ensures { IsAnswered }
{}

/// No other answer is right, where the offsets of the tokens rise.
pub fn only_answer()
    ensures text { IsOnlyText }
    ensures unexpected { IsOnlyUnexpected }
    ensures too_deep { IsOnlyTooDeep }
{}

/// Both grammars spell the same texts with the same lists of formulas, where no two tokens stand at one offset.
pub fn same_text()
    ensures { IsSpelledSame }
{}

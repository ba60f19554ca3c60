// Laws of the grammar, and worked texts.
ghost use Rattle.law_grammar.specs.Laws.{IsOneExpr, IsOneText, IsAnswered, IsOnlyText, IsOnlyUnexpected, IsOnlyTooDeep};
ghost use Rattle.law_grammar.specs.WorkedTexts.{TypesSpelled, ItemsSpelled, StatementsSpelled, NearestElse, FreeUnexpected, BareUnexpected, ColonUnexpected, EndUnexpected, DeepSpelled, TooDeep};
ghost use Rattle.law_grammar.specs.Worked.{IsOneChain, Fits64, Fits65, DifferentNames, EqualNames};

/// A list of tokens spells at most one expression.
pub fn one_expression()
    ensures { IsOneExpr }
{}

/// Worked expressions: a chain, levels, and the names of a comprehension.
pub fn worked_expressions()
    ensures one_chain { IsOneChain }
    ensures fits { Fits64 }
    ensures does_not_fit { Fits65 }
    ensures different_names { DifferentNames }
    ensures equal_names { EqualNames }
{}

/// A list of tokens spells at most one text.
pub fn one_text()
    ensures { IsOneText }
{}

/// What the reader answers is right: the text that the tokens spell, fault 5 at the first token or end after which no text can go on,
/// or fault 6 at the first token that opens a level too many.
pub fn right_answer()
    ensures { IsAnswered }
{}

/// No other answer is right, where the offsets of the tokens rise.
pub fn only_answer()
    ensures text { IsOnlyText }
    ensures unexpected { IsOnlyUnexpected }
    ensures too_deep { IsOnlyTooDeep }
{}

/// Worked texts: each kind of top, item and statement, and the nearest `else`.
pub fn worked_texts()
    ensures types { TypesSpelled }
    ensures items { ItemsSpelled }
    ensures statements { StatementsSpelled }
    ensures nearest_else { NearestElse }
{}

/// Worked faults: `free` outside a Use, the brackets of a claim, the end, and 64 levels and 65.
pub fn worked_faults()
    ensures free { FreeUnexpected }
    ensures bare { BareUnexpected }
    ensures brackets { ColonUnexpected }
    ensures end { EndUnexpected }
    ensures fits { DeepSpelled }
    ensures too_deep { TooDeep }
{}

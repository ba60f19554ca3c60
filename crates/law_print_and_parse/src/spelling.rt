// Laws of the canonical spelling.
ghost use Rattle.law_print_and_parse.specs.SpellingLaws.{IsSameExpr, IsSameType, IsSameStmt, IsSameRef, IsSameText, IsOneSpelling, IsShortest, IsNeeded, IsOneTextSpelling, IsPrintedAlike, IsShortestText, IsNeededInText};

/// The canonical tokens of an expression that some tokens spell, wherever they stand, spell that expression again, places aside, and open no more levels.
pub fn same_expression()
    ensures { IsSameExpr }
{}

/// The same of a type.
pub fn same_type()
    ensures { IsSameType }
{}

/// The same of a statement: no `else` goes over to another `if`.
pub fn same_statement()
    ensures { IsSameStmt }
{}

/// The same of a reference, where the offsets of the tokens rise: its names stay in their order.
pub fn same_reference()
    ensures { IsSameRef }
{}

/// The same of a whole text, where the offsets of the tokens rise.
pub fn same_text()
    ensures { IsSameText }
{}

/// The canonical tokens of an expression depend on the tree alone, places aside, and are the fewest that spell it. So no pair of parentheses can be left out.
pub fn fewest_tokens()
    ensures one { IsOneSpelling }
    ensures shortest { IsShortest }
    ensures needed { IsNeeded }
{}

/// The same of a whole text: what is the same, places aside, is printed alike.
pub fn fewest_tokens_of_text()
    ensures one { IsOneTextSpelling }
    ensures printed { IsPrintedAlike }
    ensures shortest { IsShortestText }
    ensures needed { IsNeededInText }
{}

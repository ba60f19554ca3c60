// Worked texts with formulas, each the contract of a function that does nothing.
ghost use Rattle.law_formula_grammar.specs.Worked.{ToggleIsSpelled, SeveralAreSpelled, XIsNoOperand, XIsNotBare, WHasTwo, NoElse, XIsTooDeep};

/// A text with one formula: its tree, the formula and the translation.
pub fn toggle_is_spelled()
    ensures { ToggleIsSpelled }
{}

/// A claim with a formula behind a binder, beside a number and a name that are claims.
pub fn several_are_spelled()
    ensures { SeveralAreSpelled }
{}

/// Where formulas are no expressions, and the levels of X.
pub fn formulas_are_refused()
    ensures operand { XIsNoOperand }
    ensures bare { XIsNotBare }
    ensures two { WHasTwo }
    ensures no_else { NoElse }
    ensures too_deep { XIsTooDeep }
{}

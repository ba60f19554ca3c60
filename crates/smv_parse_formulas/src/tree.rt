// Formulas as they are read: a list of steps, and what stands behind them.
use smv_core::seq::Seq;
use smv_core::tree::{Expr, Text};

/// What stands before the end of a formula.
#[derive(Drop)]
pub enum Step {
    /// One time later. `at`: its X.
    Later { at: u32 },
    /// Only where the condition is not out.
    Under { condition: Expr },
}

/// The end of a formula.
#[derive(Drop)]
pub enum End {
    /// An expression.
    Single { body: Expr },
    /// The first at each time, unless the second was by then.
    Unless { kept: Expr, until: Expr },
}

/// A formula: its steps from the outside in, and its end.
#[derive(Drop)]
pub struct Formula {
    pub steps: Seq<Step>,
    pub end: End,
}

/// A formula that is no expression. `at`: its first token.
#[derive(Drop)]
pub struct Placed {
    pub at: u32,
    pub formula: Formula,
}

/// A text with formulas. A claim whose formula is no expression has the number 1 at the offset of its formula as its body; the formulas stand in the order of the text.
#[derive(Drop)]
pub struct FormulaTree {
    pub text: Text,
    pub formulas: Seq<Placed>,
}

// Formulas with the bytes of their conditions and expressions.

/// What stands before the end of a formula: an X, or the bytes of a condition.
#[derive(Clone, Copy)]
pub enum Front<'a> {
    Later,
    Under(&'a [u8]),
}

/// The bytes at the end of a formula.
#[derive(Clone, Copy)]
pub enum Last<'a> {
    /// Those of an expression.
    Single(&'a [u8]),
    /// Those of what holds unless the other has held.
    Unless { kept: &'a [u8], until: &'a [u8] },
}

/// A formula with the bytes of its conditions and expressions.
#[derive(Drop)]
pub struct Phrase<'a> {
    pub fronts: Vec<Front<'a>>,
    pub last: Last<'a>,
}

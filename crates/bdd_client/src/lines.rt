// What an operation of a list says.
ghost use Rattle.std.specs.Prelude.{◌≡◌, ◌+◌, ◌≤◌, length};
ghost use Rattle.bdd_client.specs.Lines.{line_for};

/// How many bytes a number has.
pub(crate) const NUMBER: usize = 4;

/// How many bytes an operation has.
pub(crate) const LINE: usize = 12;

/// An operation. Functions are named by their numbers, which are given in the order in which functions are made.
#[derive(Clone, Copy, PartialEq, Eq)]
pub(crate) enum Line {
    /// Code 0: the variable of that number.
    Variable(u32),
    /// Code 1: the constant 0 where the operand is 0, and else the constant 1.
    Constant(bool),
    /// Code 2: the conjunction of two functions.
    And(u32, u32),
    /// Code 3: the disjunction of two functions.
    Or(u32, u32),
    /// Code 4: the negation.
    Not(u32),
    /// Code 5: the disjunction of the function with the variable at 0 and with it at 1.
    Exists(u32, u32),
    /// Code 6: each variable is replaced by the one before it. The function does not depend on variable 0.
    Rename(u32),
    /// Code 7: the function is needed no more. Here nothing is done, since no node is given back.
    Drop(u32),
    /// Code 8: writes how many nodes the function has, in decimal. Constants are no nodes.
    Count(u32),
}

/// The number whose first byte stands there.
pub(crate) fn number_at(bytes: &[u8], at: usize) -> u32
    requires { at + 4 ≤ length bytes.now }
{
    u32::from_le_bytes([bytes[at], bytes[at + 1], bytes[at + 2], bytes[at + 3]])
}

/// The operation of a code and two operands, if there is one.
pub(crate) fn line_of(code: u32, first: u32, second: u32) -> Option<Line>
    ensures { result ≡ line_for code first second }
{
    match code {
        0 => Some(Line::Variable(first)),
        1 => Some(Line::Constant(first != 0)),
        2 => Some(Line::And(first, second)),
        3 => Some(Line::Or(first, second)),
        4 => Some(Line::Not(first)),
        5 => Some(Line::Exists(first, second)),
        6 => Some(Line::Rename(first)),
        7 => Some(Line::Drop(first)),
        8 => Some(Line::Count(first)),
        _ => None,
    }
}

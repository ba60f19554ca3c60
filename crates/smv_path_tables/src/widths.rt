// How wide the columns of a table are.
ghost use Rattle.std.specs.Prelude.{◌≡◌, length};
ghost use Rattle.std.specs.Fmt.{decimal};
ghost use Rattle.smv_path_tables.specs.Tables as spec;

use itoa::Buffer;
use smv_core::{Name, Seq};

/// The length of the longest of some texts.
pub(crate) fn widest(texts: &[Name]) -> usize
    ensures { result ≡ spec.widest texts.now }
{
    let mut width = 0;
    for text in texts {
        width = width.max(text.as_bytes().len());
    }
    width
}

// The same of the values of all states.
fn widest_value(states: &[Seq<Name>]) -> usize
    ensures { result ≡ spec.widest_value states.now }
{
    let mut width = 0;
    for state in states {
        width = width.max(widest(state.as_slice()));
    }
    width
}

// How many digits a number has.
fn digits(number: usize) -> usize
    ensures { result ≡ length (decimal number) }
{
    let mut buffer = Buffer::new();
    buffer.format(number).len()
}

/// How wide the columns of these states are.
pub(crate) fn width_of(states: &[Seq<Name>]) -> usize
    ensures { result ≡ spec.width_of states.now }
{
    widest_value(states).max(digits(states.len().saturating_sub(1)))
}

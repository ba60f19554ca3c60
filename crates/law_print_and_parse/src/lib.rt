//! What is printed spells the same tree, and is printed unchanged.
//!
//! For users of `print`. Two laws, joined with the contract of `smv_parse`: the bytes that are printed are read as the very tokens that were written (`tokens`), and these spell the tree again, places aside (`spelling`). The walks follow the productions; the precedence of operators is in `smv_print/specs`.
#![tactic(auto)]

pub mod spelling;
pub mod tokens;

ghost use Rattle.law_print_and_parse.specs.Again.{IsPrintedAgain, IsOnePrint};

use crate::spelling::{fewest_tokens_of_text, same_text};
use crate::tokens::canonical_read;

/// The canonical spelling of a text spells the same tree, places aside, and printing it again gives the same bytes.
pub fn printed_again()
    ensures again { IsPrintedAgain }
    ensures one { IsOnePrint }
{
    canonical_read();
    same_text();
    fewest_tokens_of_text();
}

//! The tokens of a text.
//!
//! For `smv_parse`. It meets `specs/Lexing`: the longest token at each place, comments first.
#![tactic(auto)]

ghost use Rattle.std.specs.Prelude.{◌≡◌, ◌<◌, ◌^◌, length, IfOk, Ok, Err};
ghost use Rattle.smv_lex.specs.Answers.{IfFault};
ghost use Rattle.smv_lex.specs.Lexing.{lexed};

mod front;
pub mod laws;
pub mod letters;
mod spellings;

use front::{Front, read_front};
use smv_core::token::Token;
use smv_core::{Fault, Refusal, Seq};
use std::alloc::Global;

/// The tokens of a text, from the left and with their offsets in bytes, or its first fault of 1 to 4.
pub fn tokens(alloc: Global, text: &[u8]) -> Result<Seq<Token>, Refusal>
    requires within { length text.now < 2 ^ 32 }
    ensures tokens { IfOk result (λ tokens. lexed text.now ≡ Ok tokens) }
    ensures fault { IfFault result (λ fault. lexed text.now ≡ Err fault) }
{
    let mut tokens = Seq::new(alloc);
    let mut at = 0;
    while at < text.len() {
        let place = at as u32;
        match read_front(alloc, text.split_at(at).1)? {
            Front::Passed(bytes) => at += bytes,
            Front::Whole(kind, bytes) => {
                tokens.push(Token { kind, at: place })?;
                at += bytes;
            }
            Front::Broken(number) => return Err(Refusal::Fault(Fault { number, at: place })),
        }
    }
    Ok(tokens)
}

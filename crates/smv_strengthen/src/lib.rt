//! The strengthened text of an induction over an ordset: a claim that may assume itself, at the same time, for all smaller values of one of its parameters.
//!
//! For the prover by induction. `strengthen` writes the text of `law_strengthened_texts`, and `back` says where an offset of it stands in the text that was read. `claims` and `place` find the claim and its ordset, `tokens` the tokens of its
//! expression, `names` a new name, `bytes` writes.
#![tactic(auto)]

ghost use Rattle.std.specs.Prelude.{◌≡◌, ◌+◌, ◌^◌, ◌<◌, ◌≤◌, ℕ, length, IfOk, Err};
ghost use Rattle.smv_lex.specs.Answers.{IfFault};
ghost use Rattle.smv_parse.specs.Answers.{UnlessMemory};
ghost use Rattle.smv_parse.specs.Spelling.{SpellsText};
ghost use Rattle.smv_parse_items.specs.Answer.{fault};
ghost use Rattle.law_strengthened_texts.specs.Stronger as texts;
ghost use Rattle.law_strengthened_texts.specs.Stronger.{IsStrengthened};
ghost use Rattle.smv_strengthen.specs.Answers.{shown, IsRefused, IsWithin, IsTheStronger, IsOfPlace, IsLexFault};

mod bytes;
mod claims;
mod names;
mod place;
mod tokens;

use bytes::{put, renamed, replacement};
use law_strengthened_texts::laws::stronger_is_placed;
use names::fresh_name;
use place::{Place, place_of};
use smv_core::tree::Text;
use smv_core::{Fault, Name, Refusal, Seq};
use smv_parse::{one_answer, parse};
use smv_token_ends::bytes::between;
use smv_token_ends::ends::end_of_all;
use std::alloc::Global;
use tokens::{begin_of, body_of};

/// A strengthened text: the offset of the claim's expression, the lengths of the expression and of what stands in its place, and the offset of the claim's name in the text that was read.
#[derive(Drop)]
pub struct Stronger {
    pub text: Seq<u8>,
    pub from: u32,
    pub old: u32,
    pub new: u32,
    pub at: u32,
}

/// The text in which the one claim of this name in `main` may assume itself for smaller values of the variable. Refused are the faults 1 to 6 of the text; and, with 36 at its front, where there is no such claim or more than one, the variable is
/// none of its parameters, or its innermost binder is not over a name that an `ordset` declares.
pub fn strengthen(alloc: Global, text: &[u8], name: &Name, var: &Name) -> Result<Stronger, Refusal>
    requires within { length text.now ≤ 1048576 }
    ensures stronger { IfOk result (λ s. IsStrengthened text.now name.now var.now (shown s)) }
    ensures only_stronger { (s : texts.Stronger) → IsStrengthened text.now name.now var.now s → IsTheStronger result s }
    ensures lengths { IfOk result (λ s. IsWithin text.now s) }
    ensures fault { IfFault result (λ fault. IsRefused text.now name.now var.now fault.number fault.at) }
    ensures only_fault { (number at : ℕ) → IsRefused text.now name.now var.now number at → UnlessMemory result (Err (fault number at)) }
{
    one_answer();
    stronger_is_placed();
    answer(alloc, text, name, var)
}

fn answer(alloc: Global, text: &[u8], name: &Name, var: &Name) -> Result<Stronger, Refusal>
    requires within { length text.now ≤ 1048576 }
    ensures stronger { IfOk result (λ s. IsStrengthened text.now name.now var.now (shown s)) }
    ensures fault { IfFault result (λ fault. IsRefused text.now name.now var.now fault.number fault.at) }
{
    match parse(alloc, text) {
        Ok(tree) => of_tree(alloc, text, &tree, name, var),
        Err(refusal) => Err(refusal),
    }
}

fn of_tree(
    alloc: Global,
    text: &[u8],
    tree: &Text,
    name: &Name,
    var: &Name,
) -> Result<Stronger, Refusal>
    requires within { length text.now ≤ 1048576 }
    requires tree { SpellsText text.now tree.now }
    ensures stronger { IfOk result (λ s. IsStrengthened text.now name.now var.now (shown s)) }
    ensures fault { IfFault result (λ fault. IsRefused text.now name.now var.now fault.number fault.at) }
{
    match place_of(alloc, tree.tops.as_slice(), name, var)? {
        Some(place) => of_place(alloc, text, var, &place),
        None => Err(Refusal::Fault(Fault { number: 36, at: 0 })),
    }
}

// The text that is strengthened at the claim whose name stands there, over this ordset.
fn of_place(alloc: Global, text: &[u8], var: &Name, place: &Place) -> Result<Stronger, Refusal>
    requires within { length text.now ≤ 1048576 }
    ensures stronger { IfOk result (IsOfPlace text.now var.now place.now) }
    ensures fault { IfFault result (IsLexFault text.now) }
{
    let tokens = smv_lex::tokens(alloc, text)?;
    let fresh = fresh_name(alloc, tokens.as_slice())?;
    let body = body_of(tokens.as_slice(), place.at);
    let from = begin_of(body);
    let to = end_of_all(text, body);
    let smaller = renamed(alloc, text, var, &fresh, from as usize, to, body)?;
    let own = between(text, from as usize, to);
    let new = replacement(alloc, var, &fresh, &place.set, &smaller, own)?;
    put(alloc, text, from, to, &new, place.at)
}

/// Where an offset of the strengthened text stands in the text that was read: before the replacement at itself, inside it at the claim's name, and behind it as far from the end. It takes no memory.
pub fn back(s: &Stronger, at: u32) -> u32
    requires placed { s.now.from + s.now.new ≤ length s.now.text }
    requires short { length s.now.text + s.now.old < 2 ^ 32 + s.now.new }
    requires within { at ≤ length s.now.text }
    ensures { result ≡ texts.back (shown s.now) at }
{
    if at < s.from {
        at
    } else if u64::from(at) < u64::from(s.from) + u64::from(s.new) {
        s.at
    } else {
        at - s.new + s.old
    }
}

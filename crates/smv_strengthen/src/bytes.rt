// The bytes that are written in place of a claim's expression.
ghost use Rattle.std.specs.Prelude.{◌≡◌, ℕ, ◌++◌, ◌∷◌, ◌&&◌, not, false, IfOk, OnOk};
ghost use Rattle.smv_core.specs.Signs.{dot};
ghost use Rattle.smv_core.specs.Notation.{Tokens, same_kind};
ghost use Rattle.smv_lex.specs.Answers.{IfFault};
ghost use Rattle.law_strengthened_claims.specs.Renaming as renaming;
ghost use Rattle.law_strengthened_claims.specs.Renaming.{renamed_bytes};
ghost use Rattle.law_strengthened_claims.specs.Replacement as replacing;
ghost use Rattle.law_strengthened_texts.specs.Stronger as texts;
ghost use Rattle.smv_strengthen.specs.Answers.{shown};

use crate::Stronger;
use crate::tokens::{is_name, is_sign};
use smv_core::name::Name;
use smv_core::signs::DOT;
use smv_core::token::Token;
use smv_core::{Refusal, Seq};
use smv_token_ends::bytes::{before, behind, between};
use std::alloc::{AllocError, Global};

// Whether a token has the new name.
fn is_renamed(token: &Token, var: &Name, is_behind_dot: bool) -> bool
    ensures { result ≡ (renaming.is_name var.now token.now.kind && not is_behind_dot) }
{
    is_name(token, var) && !is_behind_dot
}

// Two pieces, one behind the other.
fn add(out: &mut Vec<u8>, first: &[u8], second: &[u8]) -> Result<(), AllocError>
    ensures { OnOk result (out.new.items ≡ out.old.items ++ (first.now ++ second.now)) }
{
    out.extend_from_slice(first)?;
    out.extend_from_slice(second)?;
    Ok(())
}

// Goes past a token, and gives the offset from which bytes are still to be written.
fn past(
    out: &mut Vec<u8>,
    text: &[u8],
    var: &Name,
    fresh: &Name,
    from: usize,
    is_behind_dot: bool,
    token: &Token,
) -> Result<usize, AllocError>
    ensures { IfOk result (λ start. (to : ℕ) (rest : Tokens) → out.new.items ++ renamed_bytes text.now var.now fresh.now start to (same_kind token.now.kind dot) rest ≡ out.old.items ++ renamed_bytes text.now var.now fresh.now from to is_behind_dot (token.now ∷ rest)) }
{
    if !is_renamed(token, var, is_behind_dot) {
        return Ok(from);
    }
    let at = token.at as usize;
    add(out, between(text, from, at), fresh.as_bytes())?;
    Ok(at + var.as_bytes().len())
}

/// The bytes of some tokens, from an offset up to another, with the new name for each that is the variable and does not follow a `.`.
pub(crate) fn renamed(
    alloc: Global,
    text: &[u8],
    var: &Name,
    fresh: &Name,
    from: usize,
    to: usize,
    tokens: &[Token],
) -> Result<Vec<u8>, AllocError>
    ensures { IfOk result (λ bytes. bytes.items ≡ renamed_bytes text.now var.now fresh.now from to false tokens.now) }
{
    let mut out = Vec::new(alloc);
    let mut start = from;
    let mut is_behind_dot = false;
    for token in tokens {
        start = past(&mut out, text, var, fresh, start, is_behind_dot, token)?;
        is_behind_dot = is_sign(token, DOT);
    }
    out.extend_from_slice(between(text, start, to))?;
    Ok(out)
}

/// What stands in place of the expression: `& [ v < VAR -> ( E2 ) : v in T ] -> ( E )`.
pub(crate) fn replacement(
    alloc: Global,
    var: &Name,
    fresh: &Name,
    set: &Name,
    smaller: &[u8],
    own: &[u8],
) -> Result<Vec<u8>, AllocError>
    ensures { IfOk result (λ bytes. bytes.items ≡ replacing.replacement var.now fresh.now set.now smaller.now own.now) }
{
    let mut out = Vec::new(alloc);
    add(&mut out, b"& [ ", fresh.as_bytes())?;
    add(&mut out, b" < ", var.as_bytes())?;
    add(&mut out, b" -> ( ", smaller)?;
    add(&mut out, b" ) : ", fresh.as_bytes())?;
    add(&mut out, b" in ", set.as_bytes())?;
    add(&mut out, b" ] -> ( ", own)?;
    out.extend_from_slice(b" )")?;
    Ok(out)
}

// A length as an offset. One that is none is more than any memory holds.
fn offset(n: usize) -> Result<u32, Refusal>
    ensures value { IfOk result (λ value. value ≡ n) }
    ensures fault { IfFault result (λ fault. ⊥) }
{
    if n > u32::MAX as usize {
        return Err(Refusal::OutOfMemory);
    }
    Ok(n as u32)
}

/// The text with other bytes in place of those from an offset up to another.
pub(crate) fn put(
    alloc: Global,
    text: &[u8],
    from: u32,
    to: usize,
    new: &[u8],
    at: u32,
) -> Result<Stronger, Refusal>
    ensures stronger { IfOk result (λ s. shown s ≡ texts.put text.now from to new.now at) }
    ensures fault { IfFault result (λ fault. ⊥) }
{
    let mut out = Vec::from_slice(alloc, before(text, from as usize))?;
    out.extend_from_slice(new)?;
    out.extend_from_slice(behind(text, to))?;
    Ok(Stronger {
        text: Seq::from_vec(out),
        from,
        old: offset(to.saturating_sub(from as usize))?,
        new: offset(new.len())?,
        at,
    })
}

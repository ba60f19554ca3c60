//! What could stand at the place of a fault 5, for the call of `smv_look`: each token after which a text can go on.
//!
//! A reader begins with `specs/Expected`. Each token is tried there by the parser, so what is told is what the parser takes.
#![tactic(auto)]

ghost use Rattle.std.specs.Prelude.{◌≡◌, ◌≤◌, ◌++◌, ℕ, List, map, length, take, nat_le, true, false, IfOk, OnOk};
ghost use Rattle.std.specs.List.{list_all};
ghost use Rattle.smv_look_expected.specs.Expected as spec;
ghost use Rattle.smv_look_expected.specs.Expected.{AreTold, IsExpected, IsRefused, IsTold};

use smv_core::Refusal;
use smv_core::signs::{RESERVED, SIGNS};
use smv_parse::{one_answer, parse};
use std::alloc::{AllocError, Global};

// What stands before an offset.
#[tactic(auto, using(std::proofs::lemmas::List::take_min))]
fn before(text: &[u8], at: usize) -> &[u8]
    ensures { result.now ≡ take at text.now }
{
    &text[..at.min(text.len())]
}

// The text up to a place, and a token behind it.
fn with_token(alloc: Global, text: &[u8], at: u32, token: &[u8]) -> Result<Vec<u8>, AllocError>
    ensures { IfOk result (λ tried. tried.items ≡ spec.with_token text.now at token.now) }
{
    let mut tried = Vec::from_slice(alloc, before(text, at as usize))?;
    tried.push(b'\n')?;
    tried.extend_from_slice(token)?;
    Ok(tried)
}

// Whether no text can go on after a token, if it stands at a place.
fn is_refused(alloc: Global, text: &[u8], at: u32, token: &[u8]) -> Result<bool, AllocError>
    requires text { length text.now ≤ 1048576 }
    requires token { length token.now ≤ 64 }
    ensures refused { IfOk result (λ refused. refused ≡ true → IsRefused text.now at token.now) }
    ensures fits { IfOk result (λ refused. refused ≡ false → IsRefused text.now at token.now → ⊥) }
{
    one_answer();
    let tried = with_token(alloc, text, at, token)?;
    match parse(alloc, tried.as_slice()) {
        Ok(_) => Ok(false),
        Err(Refusal::Fault(fault)) => Ok(fault.number == 5 && fault.at as usize == at as usize + 1),
        Err(Refusal::OutOfMemory) => Err(AllocError),
    }
}

// Writes what is told of a token.
fn push_told(
    alloc: Global,
    out: &mut Vec<u8>,
    text: &[u8],
    at: u32,
    token: &[u8],
    shown: &[u8],
) -> Result<(), AllocError>
    requires text { length text.now ≤ 1048576 }
    requires token { length token.now ≤ 64 }
    ensures { OnOk result ((bytes : List ℕ) × (out.new.items ≡ out.old.items ++ bytes) × IsTold text.now at (token.now, shown.now) bytes) }
{
    if is_refused(alloc, text, at, token)? {
        return Ok(());
    }
    out.push(b' ')?;
    out.extend_from_slice(shown)?;
    Ok(())
}

// Writes what is told of these tokens.
fn push_all(
    alloc: Global,
    out: &mut Vec<u8>,
    text: &[u8],
    at: u32,
    tokens: &[&[u8]],
) -> Result<(), AllocError>
    requires text { length text.now ≤ 1048576 }
    requires tokens { list_all (λ token. nat_le (length token.now) 64) tokens.now ≡ true }
    ensures { OnOk result ((bytes : List ℕ) × (out.new.items ≡ out.old.items ++ bytes) × AreTold text.now at (map (λ token. (token.now, token.now)) tokens.now) bytes) }
{
    for token in tokens {
        push_told(alloc, out, text, at, token, token)?;
    }
    Ok(())
}

// Writes what is told of all that is tried.
fn push_candidates(alloc: Global, out: &mut Vec<u8>, text: &[u8], at: u32) -> Result<(), AllocError>
    requires { length text.now ≤ 1048576 }
    ensures { OnOk result ((bytes : List ℕ) × (out.new.items ≡ out.old.items ++ bytes) × AreTold text.now at spec.candidates bytes) }
{
    push_told(alloc, out, text, at, b"x", b"NAME")?;
    push_told(alloc, out, text, at, b"0", b"NUMBER")?;
    push_all(alloc, out, text, at, &SIGNS)?;
    push_all(alloc, out, text, at, &RESERVED)
}

/// The line that tells what could stand at a place of a text, if a text has a fault 5 there.
pub fn expected_line(alloc: Global, text: &[u8], at: u32) -> Result<Vec<u8>, AllocError>
    requires { length text.now ≤ 1048576 }
    ensures { IfOk result (λ lines. IsExpected text.now at lines.items) }
{
    let mut out = Vec::from_slice(alloc, b"  | here may stand:")?;
    push_candidates(alloc, &mut out, text, at)?;
    out.push(b'\n')?;
    Ok(out)
}

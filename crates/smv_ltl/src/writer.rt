// The bytes that are written, each with the place in the text that was read to which it belongs. No more are written than a text may have.
ghost use Rattle.std.specs.Prelude.{◌≡◌, ◌++◌, ◌∷◌, [], ◌≤◌, ◌<◌, ◌+◌, ◌^◌, length, IfOk, OnOk};
ghost use Rattle.smv_core.specs.declared.fault.Refusal.TheVariants as refusal;
ghost use Rattle.smv_lex.specs.Answers.{IfFault};
ghost use Rattle.law_strengthened_claims.specs.Renaming as renaming;
ghost use Rattle.law_translated_texts.specs.Answers.{limit};
ghost use Rattle.law_translated_texts.specs.Translation.{placed_at, placed_from};
ghost use Rattle.smv_ltl.specs.Writing.{IsTooLong, IsOver};

use smv_core::{Fault, Refusal};
use smv_token_ends::bytes::between;
use std::alloc::AllocError;

/// How many bytes a text may have, and its translation too.
pub const LIMIT: usize = 1_048_576;

/// What is told of a text that is too long, or whose translation is.
pub fn too_long() -> Refusal
    ensures { result ≡ refusal.Fault (record { number = 31; at = 0 }) }
{
    Refusal::Fault(Fault { number: 31, at: 0 })
}

// Refuses so many bytes more where there would be too many.
fn check_room(used: usize, more: usize) -> Result<(), Refusal>
    requires fits { used ≤ limit }
    ensures ok { OnOk result (used + more ≤ limit) }
    ensures refused { IfFault result (λ fault. IsOver (used + more) fault) }
{
    if more > LIMIT - used {
        return Err(too_long());
    }
    Ok(())
}

// One byte more, and its place.
fn put(out: &mut Vec<(u8, u32)>, byte: u8, at: u32) -> Result<(), AllocError>
    ensures { OnOk result (out.new.items ≡ out.old.items ++ (byte, at) ∷ []) }
{
    out.push((byte, at))?;
    Ok(())
}

/// Bytes that belong to one place.
#[tactic(auto, using(crate::proofs::WritingLaws::lengths))]
pub fn append(out: &mut Vec<(u8, u32)>, bytes: &[u8], at: u32) -> Result<(), Refusal>
    requires fits { length out.old.items ≤ limit }
    ensures ok { OnOk result (out.new.items ≡ out.old.items ++ placed_at at bytes.now) }
    ensures fits { OnOk result (length out.new.items ≤ limit) }
    ensures refused { IfFault result (IsTooLong (out.old.items ++ placed_at at bytes.now)) }
{
    check_room(out.len(), bytes.len())?;
    for byte in bytes {
        put(out, *byte, at)?;
    }
    Ok(())
}

// Bytes of the text that was read, of which the first stands there.
#[tactic(auto, using(crate::proofs::WritingLaws::lengths))]
fn append_own(out: &mut Vec<(u8, u32)>, bytes: &[u8], from: usize) -> Result<(), Refusal>
    requires fits { length out.old.items ≤ limit }
    requires within { from + length bytes.now ≤ 2 ^ 32 }
    ensures ok { OnOk result (out.new.items ≡ out.old.items ++ placed_from from bytes.now) }
    ensures fits { OnOk result (length out.new.items ≤ limit) }
    ensures refused { IfFault result (IsTooLong (out.old.items ++ placed_from from bytes.now)) }
{
    check_room(out.len(), bytes.len())?;
    for (n, byte) in bytes.iter().enumerate() {
        put(out, *byte, (from + n) as u32)?;
    }
    Ok(())
}

/// The bytes of the text that was read from an offset up to another.
pub fn keep(out: &mut Vec<(u8, u32)>, text: &[u8], from: usize, to: usize) -> Result<(), Refusal>
    requires fits { length out.old.items ≤ limit }
    requires short { length text.now ≤ limit }
    requires within { from ≤ 2 ^ 32 }
    ensures ok { OnOk result (out.new.items ≡ out.old.items ++ placed_from from (renaming.between text.now from to)) }
    ensures fits { OnOk result (length out.new.items ≤ limit) }
    ensures refused { IfFault result (IsTooLong (out.old.items ++ placed_from from (renaming.between text.now from to))) }
{
    append_own(out, between(text, from, to), from)
}

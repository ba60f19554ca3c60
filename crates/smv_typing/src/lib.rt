//! The pass over kinds: the flattened text of a text that keeps their rules, or the first fault of kinds.
//!
//! For `smv_front`. `Typed` keeps in its invariant that no part breaks a rule of kinds (`law_designs`).
#![tactic(auto)]

ghost use Rattle.std.specs.Prelude.{◌≡◌, None, true};
ghost use Rattle.smv_mentions.specs.Said.{AreNoted};
ghost use Rattle.smv_mentions.specs.FirstFault.{first_fault};
ghost use Rattle.law_designs.specs.FlatKinds.{is_kinded};
ghost use Rattle.smv_typing.specs.Answers.{IsSpelled, IsTyped};

mod depth;
mod nodes;
mod weights;

use crate::depth::is_too_deep;
use crate::nodes::check_nodes;
use law_flat_kinds::flattened_texts_are_kinded;
use smv_core::Refusal;
use smv_core::flat::FlatText;
use smv_core::tree::Text;
use smv_flatten::flatten::flatten;
use smv_kinds::faults::kinds_fault;
use smv_mentions::pieces::Piece;
use std::alloc::Global;
use std::marker::Model;

/// A flattened text no part of which breaks a rule of kinds, ranges and sets. Contracts see the flattened text.
#[derive(Drop)]
pub struct Typed {
    flat_text: FlatText,
}

impl Model for Typed {
    ghost use Rattle.std.specs.Prelude.{◌≡◌, true};
    ghost use Rattle.std.specs.Coded.{codes};
    ghost use Rattle.smv_core.specs.declared.flat.FlatText.{FlatText};
    ghost use Rattle.smv_core.specs.contracts.flat.FlatExpr as expr;
    ghost use Rattle.smv_core.specs.contracts.flat.FlatStmt as stmt;
    ghost use Rattle.law_designs.specs.FlatKinds.{is_kinded};

    ghost Value = { FlatText };

    ghost coded = { Prim.hlevel (codes, expr.the_row.coded, stmt.the_row.coded) };

    ghost view = { λ typed. typed.flat_text };

    ghost invariant = { λ typed. is_kinded typed.flat_text ≡ true };
}

impl Typed {
    /// The flattened text.
    pub fn flat_text(&self) -> &FlatText
        ensures same { result.now ≡ self.now }
        ensures kinded { is_kinded result.now ≡ true }
    {
        &self.flat_text
    }

    /// The flattened text, alone.
    pub fn into_raw(self) -> FlatText
        ensures same { result ≡ self }
        ensures kinded { is_kinded result ≡ true }
    {
        self.flat_text
    }
}

/// The flattened text of a text that is spelled and has no fault of names and size, or else its first fault among 12 to 14, in every module. `OutOfMemory` also
/// where statements stand more than 1,000 deep inside one another, each arm of a `switch` inside the one before: the flattened text would want more stack than
/// there may be; and where the flattened text would have more than 2^24 nodes, names by 16 bytes: that is counted before it is made.
pub fn kinds(alloc: Global, text: &Text, pieces: &[Piece]) -> Result<Typed, Refusal>
    requires noted { AreNoted pieces.now text.now }
    requires spelled { IsSpelled text.now }
    requires named { first_fault text.now ≡ None }
    ensures { IsTyped text.now result }
{
    flattened_texts_are_kinded();
    if let Some(fault) = kinds_fault(alloc, text, pieces)? {
        return Err(Refusal::Fault(fault));
    }
    if is_too_deep(text) {
        return Err(Refusal::OutOfMemory);
    }
    check_nodes(alloc, text)?;
    let flat_text = flatten(alloc, text, pieces)?;
    Ok(Typed { flat_text })
}

//! The design of a flattened text: its assignments gathered into one definition for each family and definition set.
//!
//! For the passes over designs and for proofs. The definition that it meets is `law_designs/specs/Definitions`.
#![tactic(auto)]

ghost use Rattle.std.specs.Prelude.{◌≡◌, IfOk};
ghost use Rattle.law_designs.specs.Definitions.{design_of_flat_text};

pub mod acts;
pub mod definitions;
pub mod firsts;
pub mod groups;
pub mod heads;
pub mod owners;
pub mod parts;
pub mod places;
pub mod statements;

use crate::acts::{Items, take_apart};
use crate::definitions::definitions;
use crate::firsts::first_heads;
use smv_core::flat::{Design, FlatText};
use smv_core::seq::Seq;
use std::alloc::{AllocError, Global};

/// The design of a flattened text: its assignments gathered into one definition for each family and definition set, in the order of their first assignments.
/// `AllocError` also where a place does not fit its field, which no text within the limits has.
pub fn design(alloc: Global, flat_text: FlatText) -> Result<Design, AllocError>
    ensures { IfOk result (λ design. design ≡ design_of_flat_text flat_text) }
{
    let FlatText {
        sets,
        enums,
        layers,
        families,
        items,
    } = flat_text;
    let Items {
        acts,
        heads,
        claims,
        splits,
        uses,
    } = take_apart(items, alloc)?;
    let firsts = first_heads(heads.as_slice(), alloc)?;
    let defs = definitions(firsts.as_slice(), acts.as_slice(), alloc)?;
    Ok(Design {
        sets,
        enums,
        layers,
        families,
        defs: Seq::from_vec(defs),
        claims: Seq::from_vec(claims),
        splits: Seq::from_vec(splits),
        uses: Seq::from_vec(uses),
    })
}

// The cases of a leaf by its parameters, as far as there are not too many.
ghost use Rattle.std.specs.Prelude.{◌≡◌, ◌≤◌, ◌<◌, [], length, IfOk, MatchOption, ◌⊎◌};
ghost use Rattle.law_obligations.specs.LeafCases.{leaf_cases};
ghost use Rattle.smv_cases.specs.Slots.{classes_of, grown_of};

use crate::grow::grow;
use crate::slots::{Slot, slots, types};
use smv_core::Seq;
use smv_core::flat::{Case, Keep, Param, SetInfo};
use std::alloc::{AllocError, Global};

/// The most parameters that a leaf may have.
pub const MOST_PARAMETERS: usize = 8;

/// The cases of a leaf, in order; none where it has too many parameters or cases.
pub(crate) fn gather(
    alloc: Global,
    sets: &[SetInfo],
    params: &[Param],
    keeps: &[Keep],
) -> Result<Option<Seq<Case>>, AllocError>
    ensures { IfOk result (λ o. MatchOption o ((8 < length params.now) ⊎ (4096 < length (leaf_cases sets.now params.now keeps.now))) (λ cases. (classes_of cases ≡ leaf_cases sets.now params.now keeps.now) × (length params.now ≤ 8) × (length (classes_of cases) ≤ 4096))) }
{
    if params.len() > MOST_PARAMETERS {
        return Ok(None);
    }
    let slots = slots(alloc, sets, params, keeps)?;
    from_slots(alloc, slots.as_slice())
}

// The cases at these parameters.
fn from_slots(alloc: Global, slots: &[Slot]) -> Result<Option<Seq<Case>>, AllocError>
    requires { length slots.now ≤ 8 }
    ensures { IfOk result (λ o. MatchOption o (4096 < length (grown_of slots.now [] slots.now)) (λ cases. (classes_of cases ≡ grown_of slots.now [] slots.now) × (length (classes_of cases) ≤ 4096))) }
{
    let types = types(alloc, slots)?;
    let mut found = Vec::new(alloc);
    if !grow(alloc, slots, types.as_slice(), &[], slots, &mut found)? {
        return Ok(None);
    }
    Ok(Some(Seq::from_vec(found)))
}

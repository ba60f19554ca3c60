//! The function of a set of a document, where each bit that the set speaks of is a function of a store.
//!
//! For whoever tests a set over other variables than it is written over: over another order of the bits, or where some of them are worked out from others. `specs/Seen` says what the function is; a
//! line of the set is a choice between two functions, whatever these depend on.
#![tactic(auto)]

ghost use Rattle.std.specs.Prelude.{◌≡◌, ℕ, ◌*◌, Bool, true, IfOk, if◌then◌else◌, length};
ghost use Rattle.bdd_store.specs.Diagram.{IsLive, AreLive, Keeps, table};
ghost use Rattle.smv_proof.specs.Documents.{is_set};
ghost use Rattle.smv_proof.specs.Meanings.{is_below, meaning};
ghost use Rattle.smv_moved_sets.specs.Seen.{seen_by};

use bdd_ops::{and, not, or};
use bdd_store::{Ref, Store};
use smv_proof::KeptSet;
use std::alloc::{AllocError, Global};

// One function where a condition holds, and another where it does not.
fn choose(
    alloc: Global,
    store: &mut Store,
    condition: Ref,
    low: Ref,
    high: Ref,
) -> Result<Ref, AllocError>
    requires condition { IsLive store.old condition }
    requires low { IsLive store.old low }
    requires high { IsLive store.old high }
    ensures keeps { Keeps store.old store.new }
    ensures live { IfOk result (λ r. IsLive store.new r) }
    ensures table { IfOk result (λ r. (a : ℕ → Bool) → table store.new r a ≡ (if table store.old condition a then table store.old high a else table store.old low a)) }
{
    let high_part = and(alloc, store, condition, high)?;
    let otherwise = not(alloc, store, condition)?;
    let low_part = and(alloc, store, otherwise, low)?;
    let r = or(alloc, store, low_part, high_part)?;
    Ok(r)
}

/// What a set says of the values of these functions, one for each bit.
pub fn rebuild_by(
    alloc: Global,
    store: &mut Store,
    bits: &[Ref],
    set: &KeptSet,
) -> Result<Ref, AllocError>
    requires bits { AreLive store.old bits.now }
    requires set { is_set set.now ≡ true }
    requires below { is_below (2 * length bits.now) set.now ≡ true }
    ensures live { IfOk result (λ r. IsLive store.new r) }
    ensures table { IfOk result (λ r. (a : ℕ → Bool) → table store.new r a ≡ meaning set.now (seen_by store.old bits.now a)) }
    ensures keeps { Keeps store.old store.new }
{
    let mut refs = Vec::new(alloc);
    refs.push(store.constant(false))?;
    refs.push(store.constant(true))?;
    for node in set.nodes.as_slice() {
        let bit = bits[usize::from(node.var) / 2];
        let low = refs[node.low as usize];
        let high = refs[node.high as usize];
        let made = choose(alloc, store, bit, low, high)?;
        refs.push(made)?;
    }
    Ok(refs[set.root as usize])
}

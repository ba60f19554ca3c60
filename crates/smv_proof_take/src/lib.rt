//! The set of a proof document that is kept of a function of a store.
//!
//! For whoever writes a proof. `smv_proof/specs/Kept` says which set that is. `lines` gives a line its number, `walk` goes over the diagram, branches first.
#![tactic(auto)]

ghost use Rattle.std.specs.Prelude.{◌≡◌, ◌+◌, ◌<◌, ◌≤◌, length, IfOk};
ghost use Rattle.bdd_store.specs.Diagram.{IsLive, table};
ghost use Rattle.smv_proof.specs.Documents.{last_var, most};
ghost use Rattle.smv_proof.specs.Kept.{kept_set};

mod lines;
mod walk;

use bdd_store::{Ref, Store};
use smv_core::{Name, Seq};
use smv_proof::KeptSet;
use std::alloc::{AllocError, Global};
use std::collections::HashMap;
use walk::number_of;

/// The set that is kept of a function of a store, for a case of a unit by its number. It has fewer lines than the greatest number of a document: memory is wanting where there would be more.
pub fn take(
    alloc: Global,
    store: &Store,
    set: Ref,
    unit: &Name,
    number: u32,
) -> Result<KeptSet, AllocError>
    requires live { IsLive store.now set }
    requires few { store.now.vars ≤ last_var + 2 }
    ensures kept { IfOk result (λ kept. kept ≡ kept_set store.now.vars unit.now number (table store.now set)) }
    ensures few { IfOk result (λ kept. length kept.nodes < most) }
{
    let mut nodes = Vec::new(alloc);
    let mut numbers = HashMap::new(alloc);
    let mut roots = HashMap::new(alloc);
    let root = number_of(store, &mut nodes, &mut numbers, &mut roots, set)?;
    let unit = Vec::from_slice(alloc, unit.as_bytes())?;
    Ok(KeptSet {
        unit: Name::from_vec(unit),
        number,
        root,
        nodes: Seq::from_vec(nodes),
    })
}

//! The first fault of single assignment of a flattened text.
//!
//! For `smv_front`. It meets `law_designs/specs/SingleFaults`; assignments are compared only within classes.
#![tactic(auto)]

ghost use Rattle.std.specs.Prelude.{◌≡◌, IfOk};
ghost use Rattle.law_designs.specs.SingleFaults.{first_fault_of_single};

pub mod assignments;
pub mod clashes;
pub mod classes;
pub mod conflicts;
pub mod earlier;
pub mod left_sides;
pub mod links;
pub mod mixed;
pub mod shared;
pub mod variables;

use crate::assignments::assignments;
use crate::classes::classes;
use crate::conflicts::first_conflict;
use crate::links::linked_table;
use crate::mixed::first_mixed;
use crate::shared::are_shared;
use crate::variables::first_without;
use smv_core::Fault;
use smv_core::flat::FlatText;
use smv_first_fault::faults::{earlier, fault_at};
use std::alloc::{AllocError, Global};

/// The first fault of a flattened text among 15 to 17, or none.
pub fn single_fault(alloc: Global, flat_text: &FlatText) -> Result<Option<Fault>, AllocError>
    ensures { IfOk result (λ fault. fault ≡ first_fault_of_single flat_text.now) }
{
    let items = flat_text.items.as_slice();
    let all = assignments(items, alloc)?;
    let without = first_without(&all, items);
    let classes = classes(alloc, &all)?;
    let shared = are_shared(alloc, &all, &classes)?;
    let count = all.len();
    let table = linked_table(alloc, all, classes, count, shared)?;
    let conflict = first_conflict(items, &table, alloc)?;
    let mixed = first_mixed(&table);
    Ok(earlier(
        fault_at(15, conflict),
        earlier(fault_at(16, mixed), fault_at(17, without)),
    ))
}

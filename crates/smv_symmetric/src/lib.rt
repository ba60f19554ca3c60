//! The first fault of set types of a flattened text, 21 or 22: `symmetric_fault`, for the pass behind single assignment, loops and layers.
//! `kinds` has the kind of an expression, `operands` what meets a set type, `expressions` and `statements` the walk. The walk is by `specs/Plain`: there each
//! expression has a kind, and `proofs/KindLaws` says that in a text that keeps the rules of kinds it is the kind by which `law_designs` defines the faults.
#![tactic(auto)]

ghost use Rattle.std.specs.Prelude.{◌≡◌, true, IfOk};
ghost use Rattle.law_designs.specs.FlatKinds.{is_kinded};
ghost use Rattle.law_designs.specs.SetFaults.{first_fault_of_sets};

pub mod expressions;
pub mod kinds;
pub mod operands;
pub mod statements;

use crate::statements::items_fault;
use smv_core::Fault;
use smv_core::flat::FlatText;
use std::alloc::{AllocError, Global};

/// The first fault of a flattened text among 21 and 22, by place and then by number, or none: a number or the variable of a `for` that meets a set type, or
/// a value of a scalarset beside an order. The text keeps the rules of kinds.
pub fn symmetric_fault(alloc: Global, flat_text: &FlatText) -> Result<Option<Fault>, AllocError>
    requires { is_kinded flat_text.now ≡ true }
    ensures { IfOk result (λ fault. fault ≡ first_fault_of_sets flat_text.now) }
{
    let items = flat_text.items.as_slice();
    let fault = items_fault(alloc, flat_text, items)?;
    Ok(fault)
}

// The leaves of a design's units, or the first fault of its splits, 23 and 24: `leaves`, by the definitions of `law_splits`.
ghost use Rattle.law_obligations.specs.Units.{units_of};
ghost use Rattle.std.specs.Prelude.{◌≡◌};
ghost use Rattle.smv_split_faults.specs.Answers.{AreLeaves};

use crate::split_fault;
use smv_core::flat::{Design, Leaf, Unit};
use smv_core::{Refusal, Seq};
use smv_splits::unit_leaves;
use std::alloc::Global;

/// The leaf of each unit of a design, in the order of the units, or the design's first fault among 23 and 24, by place and then by number.
pub fn leaves(alloc: Global, design: &Design, units: &[Unit]) -> Result<Seq<Leaf>, Refusal>
    requires units { units.now ≡ units_of design.now }
    ensures { AreLeaves design.now result }
{
    if let Some(fault) = split_fault(alloc, design, units)? {
        return Err(Refusal::Fault(fault));
    }
    let made = unit_leaves(alloc, design, units)?;
    Ok(made)
}

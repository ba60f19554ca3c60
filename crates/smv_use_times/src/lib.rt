//! The times of the uses of each leaf: which hold up to the present time and which only before, by the definitions of `law_obligations`.
//!
//! `order` is for the pass behind the choices of leaves. `tables` has the design by numbers, `chosen` the definitions that a leaf's picks choose, `same_time`
//! its same-time set, by a worklist over families; `uses` tells from that which uses are open, and `times` finds the times of these by labels of the
//! components of the graph of all open uses. No step looks through a list for each use.
#![tactic(auto)]

ghost use Rattle.std.specs.Prelude.{◌≡◌, length, IfOk};
ghost use Rattle.law_obligations.specs.Times.{all_timed};
ghost use Rattle.law_obligations.specs.Units.{script_of, units_of};

pub mod chosen;
pub mod same_time;
pub mod tables;
pub mod times;
pub mod uses;

use crate::tables::make_tables;
use crate::times::all_times;
use crate::uses::all_uses;
use smv_core::Seq;
use smv_core::flat::{Choice, Design, Leaf, Timed, Unit};
use std::alloc::{AllocError, Global};

/// The times of the uses of each leaf of a design, in the order of the leaves.
pub fn order(
    alloc: Global,
    design: &Design,
    units: &[Unit],
    leaves: &[Leaf],
    choices: &[Choice],
) -> Result<Seq<Timed>, AllocError>
    requires units { units.now ≡ units_of design.now }
    requires leaves { length leaves.now ≡ length units.now }
    requires choices { length choices.now ≡ length units.now }
    ensures { IfOk result (λ times. times ≡ all_timed (script_of design.now leaves.now choices.now)) }
{
    let tables = make_tables(alloc, design, units)?;
    let all = all_uses(alloc, &tables, leaves, choices)?;
    let times = all_times(alloc, all.as_slice())?;
    Ok(Seq::from_vec(times))
}

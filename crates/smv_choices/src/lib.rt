//! What the proof of each leaf uses, or the first fault of uses of a design, 26 to 28: `choices`, by the definitions of `law_uses`.
//! `tables` has the names of a design, each found by its hash, and which layers define which families; `meanings` what a reference means; `found` what each
//! `using` chooses, assumes and leaves unknown; `readings` that with what it proves, once for the faults and for the choices; `twice` and `misfits` the faults 27
//! and 28, `faults` the first of all; `proofs_of` the `using` that proves a leaf; `leaf_choices` the choices. No step looks through a list for each use.
#![tactic(auto)]

ghost use Rattle.law_obligations.specs.Units.{units_of};
ghost use Rattle.law_splits.specs.Leaves.{leaves_of};
ghost use Rattle.std.specs.Prelude.{◌≡◌, map};
ghost use Rattle.smv_choices.specs.Answers.{AreChosen};
ghost use Rattle.smv_choices.specs.Held.{AreTables};
ghost use Rattle.smv_choices.specs.Readings.{reading, reading_in};

pub mod faults;
pub mod found;
pub mod keeps;
pub mod leaf_choices;
pub mod meanings;
pub mod misfits;
pub mod own;
pub mod proofs_of;
pub mod readings;
pub mod tables;
pub mod twice;

use crate::faults::uses_fault;
use crate::leaf_choices::all_choices;
use crate::readings::{Reading, all_readings};
use crate::tables::{Tables, make_tables};
use smv_core::flat::{Choice, Design, Leaf, Unit};
use smv_core::{Refusal, Seq};
use std::alloc::Global;

/// What the proof of each leaf of a design uses, in the order of the leaves, or the design's first fault among 26 to 28, by place and then by number.
pub fn choices(
    alloc: Global,
    design: &Design,
    units: &[Unit],
    leaves: &[Leaf],
) -> Result<Seq<Choice>, Refusal>
    requires units { units.now ≡ units_of design.now }
    requires leaves { leaves.now ≡ leaves_of design.now }
    ensures { AreChosen design.now result }
{
    let tables = make_tables(alloc, design)?;
    answer(alloc, units, leaves, &tables)
}

// The same by the tables of the design.
fn answer<'a>(
    alloc: Global,
    units: &[Unit],
    leaves: &'a [Leaf],
    tables: &Tables<'a>,
) -> Result<Seq<Choice>, Refusal>
    requires tables { AreTables tables.now }
    requires units { units.now ≡ units_of tables.now.design.now }
    requires leaves { leaves.now ≡ leaves_of tables.now.design.now }
    ensures { AreChosen tables.now.design.now result }
{
    let all = all_readings(alloc, tables, leaves)?;
    answer_by(alloc, units, leaves, tables, &all)
}

// The same by what each `using` says.
fn answer_by(
    alloc: Global,
    units: &[Unit],
    leaves: &[Leaf],
    tables: &Tables,
    all: &[Reading],
) -> Result<Seq<Choice>, Refusal>
    requires tables { AreTables tables.now }
    requires units { units.now ≡ units_of tables.now.design.now }
    requires leaves { leaves.now ≡ leaves_of tables.now.design.now }
    requires all { map reading all.now ≡ map (reading_in tables.now.design.now leaves.now) tables.now.design.now.uses }
    ensures { AreChosen tables.now.design.now result }
{
    if let Some(fault) = uses_fault(alloc, units, tables, all)? {
        return Err(Refusal::Fault(fault));
    }
    let made = all_choices(alloc, units, leaves, tables, all)?;
    Ok(Seq::from_vec(made))
}

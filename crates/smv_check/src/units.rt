// The sets of a document beside the cases of the units of a plan.
ghost use Rattle.std.specs.Prelude.{◌≡◌, ◌≤◌, ◌<◌, ◌++◌, true, List, Some, length, slice_get, IfOk, OnOk};
ghost use Rattle.std.specs.List.{list_all};
ghost use Rattle.law_obligations.specs.Outlines.{Entry};
ghost use Rattle.law_obligations.specs.Units.{script_of};
ghost use Rattle.law_valid_texts.specs.Rooms.{IsWholePlan};
ghost use Rattle.smv_chosen_table.specs.Tables.{IsIndex, AreBaseDefs};
ghost use Rattle.smv_obligations.specs.Shared.{IsShared};
ghost use Rattle.smv_proof.specs.Documents.{most, is_set};
ghost use Rattle.law_checked_proofs.specs.Cases.{UnitCase, cases_at, unit_cases};
ghost use Rattle.smv_check.specs.Progress.{HasPassed, IsLooked, AreLooked, GivesBack};

use crate::cases::{Task, look_at_leaf};
use smv_chosen_table::{DefIndex, base_defs, choose, index_of, put_back};
use smv_core::flat::{Def, Design};
use smv_name_numbers::{name_numbers, set_numbers};
use smv_obligations::{Shared, in_common};
use smv_problem::Plan;
use smv_proof::KeptSet;
use smv_splits::names::unit_name;
use std::alloc::{AllocError, Global};

/// How many sets of a document are looked at, and the number, from 1 on, of the first of them that fails.
#[derive(Clone, Copy)]
pub struct Progress {
    pub looked: u32,
    pub failed: Option<u32>,
}

/// What a look at the sets of some cases comes to.
#[derive(Drop)]
pub enum Looked {
    /// They are not those of the cases, or not over their state bits.
    Misfit,
    /// They are. What the problems of all cases of the design have in common is given back.
    Fits { progress: Progress, shared: Shared },
}

// What the problems of all cases of a design have in common.
fn common_of(alloc: Global, design: &Design) -> Result<Shared, AllocError>
    ensures { IfOk result (IsShared design.now) }
{
    let names = name_numbers(alloc, design.enums.as_slice())?;
    let set_names = set_numbers(alloc, design.sets.as_slice())?;
    in_common(alloc, design, names.as_slice(), set_names.as_slice())
}

/// Looks at the sets of all units of a plan, in flat order; none where they do not fit.
pub(crate) fn look_at_units(
    alloc: Global,
    plan: &Plan,
    sets: &[KeptSet],
) -> Result<Option<Progress>, AllocError>
    requires plan { IsWholePlan plan.now }
    requires sets { list_all is_set sets.now ≡ true }
    requires few { length sets.now ≤ most }
    ensures { IfOk result (AreLooked (unit_cases (script_of plan.now.design plan.now.leaves plan.now.choices)) sets.now) }
{
    let index = index_of(alloc, &plan.design, plan.units.as_slice())?;
    let mut table = base_defs(alloc, &plan.design, index.bases.as_slice())?;
    let mut common = common_of(alloc, &plan.design)?;
    let mut progress = Progress {
        looked: 0,
        failed: None,
    };
    for u in 0..plan.units.len() {
        let looked = look_at_unit(alloc, common, plan, &index, &mut table, u, sets, progress)?;
        match looked {
            Looked::Misfit => return Ok(None),
            Looked::Fits {
                progress: next,
                shared,
            } => {
                progress = next;
                common = shared;
            }
        }
    }
    Ok(Some(progress))
}

// Looks at the sets of the unit at a place of a plan. The table has the base definitions, before and after.
fn look_at_unit<'a>(
    alloc: Global,
    shared: Shared,
    plan: &'a Plan,
    index: &DefIndex,
    table: &mut Vec<Option<&'a Def>>,
    u: usize,
    sets: &[KeptSet],
    progress: Progress,
) -> Result<Looked, AllocError>
    requires plan { IsWholePlan plan.now }
    requires shared { IsShared plan.now.design shared }
    requires index { IsIndex plan.now.design plan.now.units index.now }
    requires table { AreBaseDefs plan.now.design table.old.items }
    requires there { u < length plan.now.units }
    requires sets { list_all is_set sets.now ≡ true }
    requires few { length sets.now ≤ most }
    ensures looked { IfOk result (λ looked. (entry : Entry) → slice_get (script_of plan.now.design plan.now.leaves plan.now.choices).entries u ≡ Some entry → (done : List UnitCase) → HasPassed done sets.now progress → IsLooked (done ++ cases_at (script_of plan.now.design plan.now.leaves plan.now.choices) u entry) sets.now looked) }
    ensures shared { IfOk result (GivesBack plan.now.design) }
    ensures table { OnOk result (AreBaseDefs plan.now.design table.new.items) }
{
    let design = &plan.design;
    let units = plan.units.as_slice();
    let leaf = &plan.leaves.as_slice()[u];
    let choice = &plan.choices.as_slice()[u];
    let timed = &plan.timed.as_slice()[u];
    let picks = choice.picks.as_slice();
    let name = unit_name(alloc, design, units[u])?;
    choose(design, units, index, picks, table);
    let task = Task {
        design,
        units,
        name: &name,
        leaf,
        choice,
        timed,
        table: table.as_slice(),
        sets,
    };
    let looked = look_at_leaf(alloc, shared, &task, progress)?;
    put_back(design, units, index, picks, table);
    Ok(looked)
}

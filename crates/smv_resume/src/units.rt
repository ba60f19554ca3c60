// What the units of a plan come to.
ghost use Rattle.std.specs.Prelude.{◌≡◌, ◌≤◌, ◌<◌, ◌↔◌, Some, length, slice_get, IfOk, OnOk, IsTrue};
ghost use Rattle.law_obligations.specs.Outlines.{Entry};
ghost use Rattle.law_obligations.specs.Units.{script_of};
ghost use Rattle.law_reports.specs.Reports.{AllTrueUnits};
ghost use Rattle.smv_problem.specs.declared.report.Verdict.TheVariants.{True};
ghost use Rattle.law_valid_texts.specs.Rooms.{IsWholePlan};
ghost use Rattle.smv_chosen_table.specs.Tables.{IsIndex, AreBaseDefs};
ghost use Rattle.smv_obligations.specs.Shared.{IsShared};
ghost use Rattle.smv_kept_cases.specs.OldSets.{IsOld};
ghost use Rattle.smv_resume.specs.Units.{IsUnitTried, ArePlanTried};

use crate::leaf::try_in;
use smv_chosen_table::{DefIndex, base_defs, index_of};
use smv_core::Seq;
use smv_core::flat::Def;
use smv_kept_cases::old_sets::OldSets;
use smv_obligations::Shared;
use smv_plan_reports::units::{common_of, copy_params};
use smv_problem::{Budgets, Plan, UnitResult, Verdict};
use smv_proof::KeptSet;
use smv_splits::names::unit_name;
use std::alloc::{AllocError, Global};

/// A result for each unit of a plan, in flat order, and where all are true a set for each of their cases.
#[derive(Drop)]
pub(crate) struct TriedPlan {
    pub results: Seq<UnitResult>,
    pub sets: Seq<KeptSet>,
}

// The result of a unit, and where it is true a set for each of its cases. What the problems of all cases of the design have in common is given back with it.
#[derive(Drop)]
pub(crate) struct TriedUnit {
    pub result: UnitResult,
    pub sets: Seq<KeptSet>,
    pub shared: Shared,
}

/// What the units of a plan come to, in flat order. What is made once for the design goes from unit to unit.
pub(crate) fn try_units(
    alloc: Global,
    plan: &Plan,
    old: &OldSets,
    budgets: Budgets,
) -> Result<TriedPlan, AllocError>
    requires plan { IsWholePlan plan.now }
    requires old { IsOld old.now }
    requires steps { 1 ≤ budgets.steps }
    ensures { IfOk result (λ tried. ArePlanTried old.now.sets.now budgets.nodes budgets.steps (script_of plan.now.design plan.now.leaves plan.now.choices) (script_of plan.now.design plan.now.leaves plan.now.choices).entries tried.results tried.sets) }
{
    let index = index_of(alloc, &plan.design, plan.units.as_slice())?;
    let mut table = base_defs(alloc, &plan.design, index.bases.as_slice())?;
    let mut common = common_of(alloc, &plan.design)?;
    let mut results = Seq::new(alloc);
    let mut sets = Vec::new(alloc);
    for u in 0..plan.units.len() {
        let done = try_unit(alloc, common, plan, &index, &mut table, u, old, budgets)?;
        common = done.shared;
        results.push(done.result)?;
        let mut more = done.sets.into_vec();
        sets.append(&mut more)?;
    }
    Ok(TriedPlan {
        results,
        sets: Seq::from_vec(sets),
    })
}

// What the unit at a place of a plan comes to. The table has the base definitions, before and after.
fn try_unit<'a>(
    alloc: Global,
    shared: Shared,
    plan: &'a Plan,
    index: &DefIndex,
    table: &mut Vec<Option<&'a Def>>,
    u: usize,
    old: &OldSets,
    budgets: Budgets,
) -> Result<TriedUnit, AllocError>
    requires plan { IsWholePlan plan.now }
    requires shared { IsShared plan.now.design shared }
    requires index { IsIndex plan.now.design plan.now.units index.now }
    requires table { AreBaseDefs plan.now.design table.old.items }
    requires there { u < length plan.now.units }
    requires old { IsOld old.now }
    requires steps { 1 ≤ budgets.steps }
    ensures tried { IfOk result (λ done. (entry : Entry) → slice_get (script_of plan.now.design plan.now.leaves plan.now.choices).entries u ≡ Some entry → IsUnitTried old.now.sets.now budgets.nodes budgets.steps (script_of plan.now.design plan.now.leaves plan.now.choices) u entry done.result done.sets) }
    ensures shared { IfOk result (λ done. IsShared plan.now.design done.shared) }
    ensures table { OnOk result (AreBaseDefs plan.now.design table.new.items) }
{
    let units = plan.units.as_slice();
    let leaf = &plan.leaves.as_slice()[u];
    let choice = &plan.choices.as_slice()[u];
    let timed = &plan.timed.as_slice()[u];
    let name = unit_name(alloc, &plan.design, units[u])?;
    let params = copy_params(alloc, leaf.params.as_slice())?;
    let done = try_in(
        alloc,
        shared,
        &plan.design,
        units,
        leaf,
        choice,
        timed,
        index,
        table,
        &name,
        old,
        budgets,
    )?;
    Ok(TriedUnit {
        result: UnitResult {
            name,
            params,
            verdict: done.verdict,
        },
        sets: done.sets,
        shared: done.shared,
    })
}

/// Whether each unit is true.
pub(crate) fn all_true(results: &[UnitResult]) -> bool
    ensures { IsTrue result ↔ AllTrueUnits results.now }
{
    for told in results {
        if !is_true(&told.verdict) {
            return false;
        }
    }
    true
}

// Whether a verdict is true.
fn is_true(verdict: &Verdict) -> bool
    ensures { IsTrue result ↔ (verdict.now ≡ True) }
{
    matches!(verdict, Verdict::True)
}

// The results of units.
ghost use Rattle.std.specs.Prelude.{◌≡◌, ◌≤◌, ◌<◌, Some, length, slice_get, IfOk, OnOk};
ghost use Rattle.law_obligations.specs.Outlines.{Entry};
ghost use Rattle.law_obligations.specs.Units.{script_of};
ghost use Rattle.law_reports.specs.Reports.{IsResultOf, AreResultsFrom};
ghost use Rattle.law_valid_texts.specs.Rooms.{IsWholePlan};
ghost use Rattle.smv_chosen_table.specs.Tables.{IsIndex, AreBaseDefs};
ghost use Rattle.smv_obligations.specs.Shared.{IsShared};
ghost use Rattle.smv_plan_reports.specs.Numbers.{AreNumbers};

use crate::leaf::decide_in;
use smv_bits::Bits;
use smv_chosen_table::{DefIndex, base_defs, index_of};
use smv_copies::copy_name;
use smv_core::Seq;
use smv_core::flat::{Def, Design, Param};
use smv_name_numbers::{name_numbers, set_numbers};
use smv_obligations::{Shared, in_common};
use smv_problem::{Budgets, Plan, UnitResult};
use smv_splits::names::unit_name;
use std::alloc::{AllocError, Global};

/// The numbers of the names of a design: of its constants, list by list, and of its set types.
#[derive(Drop)]
pub struct Numbers {
    pub names: Seq<Seq<usize>>,
    pub set_names: Seq<usize>,
}

/// The numbers of the names of a design. They are made once for all its units.
pub fn numbers_of(alloc: Global, design: &Design) -> Result<Numbers, AllocError>
    ensures { IfOk result (AreNumbers design.now) }
{
    let names = name_numbers(alloc, design.enums.as_slice())?;
    let set_names = set_numbers(alloc, design.sets.as_slice())?;
    Ok(Numbers { names, set_names })
}

/// What the problems of all cases of a design have in common. It is made once for all its units.
pub fn common_of(alloc: Global, design: &Design) -> Result<Shared, AllocError>
    ensures { IfOk result (IsShared design.now) }
{
    let numbers = numbers_of(alloc, design)?;
    in_common(
        alloc,
        design,
        numbers.names.as_slice(),
        numbers.set_names.as_slice(),
    )
}

/// A result for each unit of a plan, in flat order. What is made once for the design goes from unit to unit.
pub fn results(
    alloc: Global,
    plan: &Plan,
    bits: Bits,
    budgets: Budgets,
) -> Result<Seq<UnitResult>, AllocError>
    requires plan { IsWholePlan plan.now }
    requires steps { 1 ≤ budgets.steps }
    ensures { IfOk result (λ results. AreResultsFrom (script_of plan.now.design plan.now.leaves plan.now.choices) bits budgets.nodes budgets.steps 0 (script_of plan.now.design plan.now.leaves plan.now.choices).entries results) }
{
    let index = index_of(alloc, &plan.design, plan.units.as_slice())?;
    let mut table = base_defs(alloc, &plan.design, index.bases.as_slice())?;
    let mut common = common_of(alloc, &plan.design)?;
    let mut results = Seq::new(alloc);
    for u in 0..plan.units.len() {
        let done = result_at(alloc, common, plan, &index, &mut table, u, bits, budgets)?;
        common = done.shared;
        results.push(done.result)?;
    }
    Ok(results)
}

/// What is decided of the unit at a place of a plan, alone.
pub(crate) fn result_alone(
    alloc: Global,
    plan: &Plan,
    u: usize,
    bits: Bits,
    budgets: Budgets,
) -> Result<UnitResult, AllocError>
    requires plan { IsWholePlan plan.now }
    requires there { u < length plan.now.units }
    requires steps { 1 ≤ budgets.steps }
    ensures { IfOk result (λ r. (entry : Entry) → slice_get (script_of plan.now.design plan.now.leaves plan.now.choices).entries u ≡ Some entry → IsResultOf (script_of plan.now.design plan.now.leaves plan.now.choices) bits budgets.nodes budgets.steps u entry r) }
{
    let index = index_of(alloc, &plan.design, plan.units.as_slice())?;
    let mut table = base_defs(alloc, &plan.design, index.bases.as_slice())?;
    let common = common_of(alloc, &plan.design)?;
    let done = result_at(alloc, common, plan, &index, &mut table, u, bits, budgets)?;
    Ok(done.result)
}

/// What is decided of a unit. What the problems of all cases of the design have in common is given back with it.
#[derive(Drop)]
pub struct Done {
    pub result: UnitResult,
    pub shared: Shared,
}

// What is decided of the unit at a place of a plan. The table has the base definitions, before and after.
fn result_at<'a>(
    alloc: Global,
    shared: Shared,
    plan: &'a Plan,
    index: &DefIndex,
    table: &mut Vec<Option<&'a Def>>,
    u: usize,
    bits: Bits,
    budgets: Budgets,
) -> Result<Done, AllocError>
    requires plan { IsWholePlan plan.now }
    requires shared { IsShared plan.now.design shared }
    requires index { IsIndex plan.now.design plan.now.units index.now }
    requires table { AreBaseDefs plan.now.design table.old.items }
    requires there { u < length plan.now.units }
    requires steps { 1 ≤ budgets.steps }
    ensures result { IfOk result (λ done. (entry : Entry) → slice_get (script_of plan.now.design plan.now.leaves plan.now.choices).entries u ≡ Some entry → IsResultOf (script_of plan.now.design plan.now.leaves plan.now.choices) bits budgets.nodes budgets.steps u entry done.result) }
    ensures shared { IfOk result (λ done. IsShared plan.now.design done.shared) }
    ensures table { OnOk result (AreBaseDefs plan.now.design table.new.items) }
{
    let units = plan.units.as_slice();
    let leaf = &plan.leaves.as_slice()[u];
    let choice = &plan.choices.as_slice()[u];
    let timed = &plan.timed.as_slice()[u];
    let name = unit_name(alloc, &plan.design, units[u])?;
    let params = copy_params(alloc, leaf.params.as_slice())?;
    let told = decide_in(
        alloc,
        shared,
        &plan.design,
        units,
        leaf,
        choice,
        timed,
        index,
        table,
        bits,
        budgets,
    )?;
    Ok(Done {
        result: UnitResult {
            name,
            params,
            verdict: told.verdict,
        },
        shared: told.shared,
    })
}

// A copy of a parameter.
fn copy_param(alloc: Global, param: &Param) -> Result<Param, AllocError>
    ensures { IfOk result (λ copy. copy ≡ param.now) }
{
    let name = copy_name(alloc, &param.name)?;
    Ok(Param {
        var: param.var,
        over: param.over,
        name,
    })
}

/// A copy of each parameter, in their order.
pub fn copy_params(alloc: Global, params: &[Param]) -> Result<Seq<Param>, AllocError>
    ensures { IfOk result (λ copies. copies ≡ params.now) }
{
    let mut copies = Seq::new(alloc);
    for param in params {
        copies.push(copy_param(alloc, param)?)?;
    }
    Ok(copies)
}

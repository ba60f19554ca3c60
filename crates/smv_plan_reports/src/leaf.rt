// The verdict of a leaf.
ghost use Rattle.std.specs.Prelude.{◌≡◌, ◌≤◌, IfOk, OnOk};
ghost use Rattle.law_obligations.specs.LeafCases.{leaf_cases};
ghost use Rattle.law_obligations.specs.Units.{units_of};
ghost use Rattle.law_problems.specs.Parts.{IsPart, case_with};
ghost use Rattle.law_reports.specs.Told.{IsToldBy};
ghost use Rattle.law_valid_texts.specs.Rooms.{HasRoom};
ghost use Rattle.smv_chosen_table.specs.Tables.{IsIndex, AreBaseDefs};
ghost use Rattle.smv_obligations.specs.Shared.{IsShared};
ghost use Rattle.smv_decide.specs.Tasks.{IsTask, case_in};

use smv_bits::Bits;
use smv_cases::calls::cases;
use smv_chosen_table::{DefIndex, choose, put_back};
use smv_core::flat::{Choice, Def, Design, Leaf, Timed, Unit};
use smv_decide::leaves::{Told, decide_cases};
use smv_decide::tasks::Task;
use smv_obligations::Shared;
use smv_problem::Budgets;
use std::alloc::{AllocError, Global};

/// Decides a leaf that has room, over bits that stand so: by all its cases, in order, up to the first that is not true. What the problems of all cases of the design have in common is moved in, and given back.
fn decide_leaf(
    alloc: Global,
    shared: Shared,
    task: &Task,
    bits: Bits,
    budgets: Budgets,
) -> Result<Told, AllocError>
    requires shared { IsShared task.now.design.now shared }
    requires task { IsTask task.now }
    requires room { HasRoom task.now.design.now task.now.leaf.now task.now.choice.now }
    requires steps { 1 ≤ budgets.steps }
    ensures told { IfOk result (λ told. IsToldBy (case_in task.now) bits budgets.nodes budgets.steps (leaf_cases task.now.design.now.sets task.now.leaf.now.params task.now.choice.now.keeps) told.verdict) }
    ensures shared { IfOk result (λ told. IsShared task.now.design.now told.shared) }
{
    match cases(alloc, task.design, task.units, task.leaf, task.choice) {
        Ok(cases) => {
            let told = decide_cases(alloc, shared, task, cases.as_slice(), bits, budgets)?;
            Ok(told)
        }
        Err(_) => Err(AllocError),
    }
}

/// The same, where the table has the base definitions: what the leaf's picks choose is put there, and the base definitions are put back.
pub(crate) fn decide_in<'a>(
    alloc: Global,
    shared: Shared,
    design: &'a Design,
    units: &[Unit],
    leaf: &Leaf,
    choice: &Choice,
    timed: &Timed,
    index: &DefIndex,
    table: &mut Vec<Option<&'a Def>>,
    bits: Bits,
    budgets: Budgets,
) -> Result<Told, AllocError>
    requires shared { IsShared design.now shared }
    requires units { units.now ≡ units_of design.now }
    requires part { IsPart design.now leaf.now choice.now }
    requires room { HasRoom design.now leaf.now choice.now }
    requires index { IsIndex design.now units.now index.now }
    requires table { AreBaseDefs design.now table.old.items }
    requires steps { 1 ≤ budgets.steps }
    ensures told { IfOk result (λ told. IsToldBy (case_with design.now leaf.now choice.now timed.now) bits budgets.nodes budgets.steps (leaf_cases design.now.sets leaf.now.params choice.now.keeps) told.verdict) }
    ensures shared { IfOk result (λ told. IsShared design.now told.shared) }
    ensures table { OnOk result (AreBaseDefs design.now table.new.items) }
{
    let picks = choice.picks.as_slice();
    choose(design, units, index, picks, table);
    let task = Task {
        design,
        units,
        leaf,
        choice,
        timed,
        table: table.as_slice(),
    };
    let told = decide_leaf(alloc, shared, &task, bits, budgets)?;
    put_back(design, units, index, picks, table);
    Ok(told)
}

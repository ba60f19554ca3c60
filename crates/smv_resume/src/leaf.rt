// What a leaf comes to.
ghost use Rattle.std.specs.Prelude.{◌≡◌, ◌≤◌, IfOk, OnOk};
ghost use Rattle.law_obligations.specs.LeafCases.{leaf_cases};
ghost use Rattle.law_obligations.specs.Units.{units_of};
ghost use Rattle.law_problems.specs.Parts.{IsPart, case_with};
ghost use Rattle.law_valid_texts.specs.Rooms.{HasRoom};
ghost use Rattle.smv_chosen_table.specs.Tables.{IsIndex, AreBaseDefs};
ghost use Rattle.smv_obligations.specs.Shared.{IsShared};
ghost use Rattle.smv_decide.specs.Tasks.{IsTask, case_in};
ghost use Rattle.law_checked_proofs.specs.Cases.{cases_from};
ghost use Rattle.smv_kept_cases.specs.OldSets.{IsOld};
ghost use Rattle.smv_kept_cases.specs.Tried.{IsLeafTried};

use smv_cases::calls::cases;
use smv_chosen_table::{DefIndex, choose, put_back};
use smv_core::Name;
use smv_core::flat::{Choice, Def, Design, Leaf, Timed, Unit};
use smv_decide::tasks::Task;
use smv_kept_cases::leaf::{TriedLeaf, try_cases};
use smv_kept_cases::old_sets::OldSets;
use smv_obligations::Shared;
use smv_problem::Budgets;
use std::alloc::{AllocError, Global};

// What a leaf that has room comes to, by all its cases in order.
fn try_leaf(
    alloc: Global,
    shared: Shared,
    task: &Task,
    unit: &Name,
    old: &OldSets,
    budgets: Budgets,
) -> Result<TriedLeaf, AllocError>
    requires shared { IsShared task.now.design.now shared }
    requires task { IsTask task.now }
    requires room { HasRoom task.now.design.now task.now.leaf.now task.now.choice.now }
    requires old { IsOld old.now }
    requires steps { 1 ≤ budgets.steps }
    ensures tried { IfOk result (λ done. IsLeafTried old.now.sets.now budgets.nodes budgets.steps (cases_from unit.now (case_in task.now) 0 (leaf_cases task.now.design.now.sets task.now.leaf.now.params task.now.choice.now.keeps)) done.verdict done.sets) }
    ensures shared { IfOk result (λ done. IsShared task.now.design.now done.shared) }
{
    match cases(alloc, task.design, task.units, task.leaf, task.choice) {
        Ok(cases) => {
            let done = try_cases(alloc, shared, task, unit, cases.as_slice(), old, budgets)?;
            Ok(done)
        }
        Err(_) => Err(AllocError),
    }
}

/// The same, where the table has the base definitions: what the leaf's picks choose is put there, and the base definitions are put back.
pub(crate) fn try_in<'a>(
    alloc: Global,
    shared: Shared,
    design: &'a Design,
    units: &[Unit],
    leaf: &Leaf,
    choice: &Choice,
    timed: &Timed,
    index: &DefIndex,
    table: &mut Vec<Option<&'a Def>>,
    unit: &Name,
    old: &OldSets,
    budgets: Budgets,
) -> Result<TriedLeaf, AllocError>
    requires shared { IsShared design.now shared }
    requires units { units.now ≡ units_of design.now }
    requires part { IsPart design.now leaf.now choice.now }
    requires room { HasRoom design.now leaf.now choice.now }
    requires index { IsIndex design.now units.now index.now }
    requires table { AreBaseDefs design.now table.old.items }
    requires old { IsOld old.now }
    requires steps { 1 ≤ budgets.steps }
    ensures tried { IfOk result (λ done. IsLeafTried old.now.sets.now budgets.nodes budgets.steps (cases_from unit.now (case_with design.now leaf.now choice.now timed.now) 0 (leaf_cases design.now.sets leaf.now.params choice.now.keeps)) done.verdict done.sets) }
    ensures shared { IfOk result (λ done. IsShared design.now done.shared) }
    ensures table { OnOk result (AreBaseDefs design.now table.new.items) }
{
    let picks = choice.picks.as_slice();
    choose(design, units, index, picks, table);
    let task = Task {
        design,
        units,
        leaf,
        choice,
        timed,
        table: table.as_slice(),
    };
    let done = try_leaf(alloc, shared, &task, unit, old, budgets)?;
    put_back(design, units, index, picks, table);
    Ok(done)
}

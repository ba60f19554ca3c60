// Cases with too many state bits: the first such fault of the leaves of a plan.
ghost use Rattle.std.specs.Prelude.{◌≡◌, List, None, Some, length, IfOk, OnOk};
ghost use Rattle.smv_core.specs.declared.flat.Class.{Class};
ghost use Rattle.smv_core.specs.declared.flat.Leaf.{Leaf};
ghost use Rattle.smv_core.specs.declared.flat.Choice.{Choice};
ghost use Rattle.law_obligations.specs.Sets.{Has};
ghost use Rattle.smv_mentions.specs.FirstFault.{first_of};
ghost use Rattle.law_obligations.specs.Units.{units_of};
ghost use Rattle.smv_cases.specs.Slots.{classes_of};
ghost use Rattle.smv_chosen_table.specs.Tables.{IsIndex, IsTable, AreBaseDefs};
ghost use Rattle.law_problems.specs.Parts.{IsPart, IsCaseOf, outlined, cases_fault, width_fault};
ghost use Rattle.smv_read_design.specs.Widths.{faults_in, leaf_faults, faults_of_widths, AreParts};

use law_valid_texts::parts_of_texts::cases_are_of_leaves;
use smv_cases::calls::cases;
use smv_chosen_table::{DefIndex, base_defs, choose, index_of, put_back};
use smv_cone::cone;
use smv_core::flat::{Case, Choice, Def, Design, Leaf, Unit};
use smv_core::{Fault, Refusal};
use smv_first_fault::faults::earlier;
use std::alloc::{AllocError, Global};

// The fault of a case.
fn case_fault(
    alloc: Global,
    design: &Design,
    units: &[Unit],
    leaf: &Leaf,
    case: &Case,
    choice: &Choice,
    table: &[Option<&Def>],
) -> Result<Option<Fault>, AllocError>
    requires units { units.now ≡ units_of design.now }
    requires part { IsPart design.now leaf.now choice.now }
    requires case { IsCaseOf design.now leaf.now choice.now case.now.classes }
    requires table { IsTable (outlined design.now) choice.now.picks table.now }
    ensures { IfOk result (λ fault. fault ≡ width_fault design.now leaf.now choice.now case.now.classes) }
{
    match cone(alloc, design, units, leaf, case, choice, table) {
        Ok(_) => Ok(None),
        Err(Refusal::Fault(fault)) => Ok(Some(fault)),
        Err(Refusal::OutOfMemory) => Err(AllocError),
    }
}

// The first fault of these cases of a leaf.
#[tactic(auto, using(crate::proofs::FirstLaws::along_cases))]
fn cases_width(
    alloc: Global,
    design: &Design,
    units: &[Unit],
    leaf: &Leaf,
    choice: &Choice,
    cases: &[Case],
    table: &[Option<&Def>],
) -> Result<Option<Fault>, AllocError>
    requires units { units.now ≡ units_of design.now }
    requires part { IsPart design.now leaf.now choice.now }
    requires cases { (classes : List Class) → Has (classes_of cases.now) classes → IsCaseOf design.now leaf.now choice.now classes }
    requires table { IsTable (outlined design.now) choice.now.picks table.now }
    ensures { IfOk result (λ fault. fault ≡ first_of (faults_in design.now leaf.now choice.now (classes_of cases.now))) }
{
    let mut found = None;
    for place in 0..cases.len() {
        let fault = case_fault(alloc, design, units, leaf, &cases[place], choice, table)?;
        found = earlier(found, fault);
    }
    Ok(found)
}

// The same, where the table has the base definitions: what the leaf's picks choose is put there, and the base definitions are put back.
fn chosen_width<'a>(
    alloc: Global,
    design: &'a Design,
    units: &[Unit],
    leaf: &Leaf,
    choice: &Choice,
    cases: &[Case],
    index: &DefIndex,
    table: &mut Vec<Option<&'a Def>>,
) -> Result<Option<Fault>, AllocError>
    requires units { units.now ≡ units_of design.now }
    requires part { IsPart design.now leaf.now choice.now }
    requires cases { (classes : List Class) → Has (classes_of cases.now) classes → IsCaseOf design.now leaf.now choice.now classes }
    requires index { IsIndex design.now units.now index.now }
    requires table { AreBaseDefs design.now table.old.items }
    ensures fault { IfOk result (λ fault. fault ≡ first_of (faults_in design.now leaf.now choice.now (classes_of cases.now))) }
    ensures table { OnOk result (AreBaseDefs design.now table.new.items) }
{
    let picks = choice.picks.as_slice();
    choose(design, units, index, picks, table);
    let fault = cases_width(alloc, design, units, leaf, choice, cases, table.as_slice())?;
    put_back(design, units, index, picks, table);
    Ok(fault)
}

// The first fault of a leaf's cases.
fn leaf_width<'a>(
    alloc: Global,
    design: &'a Design,
    units: &[Unit],
    leaf: &Leaf,
    choice: &Choice,
    index: &DefIndex,
    table: &mut Vec<Option<&'a Def>>,
) -> Result<Option<Fault>, AllocError>
    requires units { units.now ≡ units_of design.now }
    requires part { IsPart design.now leaf.now choice.now }
    requires few { cases_fault design.now leaf.now choice.now ≡ None }
    requires index { IsIndex design.now units.now index.now }
    requires table { AreBaseDefs design.now table.old.items }
    ensures fault { IfOk result (λ fault. fault ≡ first_of (leaf_faults design.now leaf.now choice.now)) }
    ensures table { OnOk result (AreBaseDefs design.now table.new.items) }
{
    cases_are_of_leaves();
    match cases(alloc, design, units, leaf, choice) {
        Ok(cases) => {
            let listed = cases.as_slice();
            chosen_width(alloc, design, units, leaf, choice, listed, index, table)
        }
        Err(_) => Err(AllocError),
    }
}

/// The first case with too many state bits of the leaves of a design, each with the choice at its place: fault 30 at the leaf's unit. The table of base definitions is made once, so a leaf costs
/// what its cases and its picks are.
#[tactic(auto, using(crate::proofs::FirstLaws::along_leaves))]
pub fn width_fault(
    alloc: Global,
    design: &Design,
    units: &[Unit],
    leaves: &[Leaf],
    choices: &[Choice],
) -> Result<Option<Fault>, AllocError>
    requires units { units.now ≡ units_of design.now }
    requires choices { length choices.now ≡ length leaves.now }
    requires parts { AreParts design.now leaves.now choices.now }
    ensures { IfOk result (λ fault. fault ≡ first_of (faults_of_widths design.now leaves.now choices.now)) }
{
    let index = index_of(alloc, design, units)?;
    let mut table = base_defs(alloc, design, index.bases.as_slice())?;
    let mut found = None;
    for place in 0..leaves.len() {
        let leaf = &leaves[place];
        let choice = &choices[place];
        let fault = leaf_width(alloc, design, units, leaf, choice, &index, &mut table)?;
        found = earlier(found, fault);
    }
    Ok(found)
}

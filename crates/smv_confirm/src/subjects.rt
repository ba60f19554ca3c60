// What of a plan is decided at given sizes.
ghost use Rattle.std.specs.Prelude.{◌≡◌, ◌≤◌, ◌<◌, None, IfOk, length};
ghost use Rattle.law_concrete.specs.Sizes as given;
ghost use Rattle.law_concrete.specs.Sizes.{cases_fault, sizes_at, sizes_fault};
ghost use Rattle.law_confirmed.specs.Confirmed.{IsToldAt};
ghost use Rattle.law_problems.specs.Parts.{Refuses};
ghost use Rattle.smv_obligations.specs.Shared.{IsShared};
ghost use Rattle.smv_decide.specs.Leaves.{classes_in};
ghost use Rattle.smv_concrete.specs.Subjects.{IsSubject, cases_in, unit_of};
ghost use Rattle.smv_confirm.specs.Confirmations.{AreInRange};
ghost use Rattle.smv_confirm.specs.Ready.{IsReady, IsReadyDesign, own_of, unit_at};

use crate::cases::decide_cases;
use law_concrete::sizes::given_are_sizes;
use smv_bits::Bits;
use smv_chosen_table::{base_defs, index_of};
use smv_concrete::subjects::{
    Subject, no_times, nothing_used, own_count, whole_types, without_splits,
};
use smv_concrete::{at_sizes, width_fault};
use smv_core::flat::{Case, Design, Leaf, Param};
use smv_core::{Refusal, Seq};
use smv_name_numbers::{name_numbers, set_numbers};
use smv_obligations::{Shared, in_common};
use smv_problem::{Budgets, Plan, Verdict};
use std::alloc::{AllocError, Global};

// What the problems of all cases of a design have in common.
fn common_of(alloc: Global, design: &Design) -> Result<Shared, AllocError>
    ensures { IfOk result (IsShared design.now) }
{
    let names = name_numbers(alloc, design.enums.as_slice())?;
    let set_names = set_numbers(alloc, design.sets.as_slice())?;
    in_common(alloc, design, names.as_slice(), set_names.as_slice())
}

// What is told of a unit by its cases, or the fault of one that has too many state bits.
fn tell_cases(
    alloc: Global,
    subject: &Subject,
    cases: &[Case],
    bits: Bits,
    budgets: Budgets,
) -> Result<Verdict, Refusal>
    requires ready { IsReadyDesign subject.now.design.now }
    requires sizes { AreInRange subject.now.sizes.now }
    requires subject { IsSubject subject.now }
    requires taken { cases_fault subject.now.design.now (unit_of subject.now) subject.now.sizes.now ≡ None }
    requires cases { classes_in cases.now ≡ cases_in subject.now }
    requires steps { 1 ≤ budgets.steps }
    ensures verdict { IfOk result (IsToldAt subject.now.design.now (sizes_at subject.now.design.now.sets subject.now.sizes.now) (unit_of subject.now) bits budgets.nodes budgets.steps) }
    ensures refuses { Refuses (given.width_fault subject.now.design.now (unit_of subject.now) subject.now.sizes.now) result }
{
    given_are_sizes();
    let wide = width_fault(alloc, subject, cases)?;
    match wide {
        Some(fault) => Err(Refusal::Fault(fault)),
        None => {
            let shared = common_of(alloc, subject.design)?;
            let verdict = decide_cases(alloc, subject, shared, cases, bits, budgets)?;
            Ok(verdict)
        }
    }
}

// What is told of a unit, or the fault for which the sizes are refused.
fn tell_subject(
    alloc: Global,
    subject: &Subject,
    bits: Bits,
    budgets: Budgets,
) -> Result<Verdict, Refusal>
    requires ready { IsReadyDesign subject.now.design.now }
    requires sizes { AreInRange subject.now.sizes.now }
    requires subject { IsSubject subject.now }
    requires steps { 1 ≤ budgets.steps }
    ensures verdict { IfOk result (IsToldAt subject.now.design.now (sizes_at subject.now.design.now.sets subject.now.sizes.now) (unit_of subject.now) bits budgets.nodes budgets.steps) }
    ensures refuses { Refuses (sizes_fault subject.now.design.now (unit_of subject.now) subject.now.sizes.now) result }
{
    match at_sizes(alloc, subject) {
        Ok(cases) => tell_cases(alloc, subject, cases.as_slice(), bits, budgets),
        Err(refusal) => Err(refusal),
    }
}

// The leaf of the unit at a place, without what splits add.
fn own_leaf(alloc: Global, plan: &Plan, place: usize) -> Result<Leaf, AllocError>
    requires place { place < length plan.now.units }
    requires leaves { length plan.now.leaves ≡ length plan.now.units }
    ensures { IfOk result (λ leaf. leaf ≡ own_of plan.now place) }
{
    let count = own_count(&plan.design, plan.units.as_slice()[place]);
    let leaf = without_splits(alloc, &plan.leaves.as_slice()[place], count)?;
    Ok(leaf)
}

/// What is told of a unit, and its own parameters.
#[derive(Drop)]
pub struct Told {
    pub params: Seq<Param>,
    pub verdict: Verdict,
}

/// What is told of the unit at a place of a plan, with its own parameters; or the fault for which the sizes are refused.
pub(crate) fn tell(
    alloc: Global,
    plan: &Plan,
    place: usize,
    sizes: &[u16],
    bits: Bits,
    budgets: Budgets,
) -> Result<Told, Refusal>
    requires ready { IsReady plan.now }
    requires place { place < length plan.now.units }
    requires sizes { AreInRange sizes.now }
    requires steps { 1 ≤ budgets.steps }
    ensures verdict { IfOk result (λ told. IsToldAt plan.now.design (sizes_at plan.now.design.sets sizes.now) (unit_at plan.now place) bits budgets.nodes budgets.steps told.verdict) }
    ensures params { IfOk result (λ told. told.params ≡ (own_of plan.now place).params) }
    ensures refuses { Refuses (sizes_fault plan.now.design (unit_at plan.now place) sizes.now) result }
{
    let leaf = own_leaf(alloc, plan, place)?;
    let choice = nothing_used(alloc);
    let timed = no_times(alloc);
    let types = whole_types(alloc, plan.design.sets.as_slice(), sizes)?;
    let index = index_of(alloc, &plan.design, plan.units.as_slice())?;
    let table = base_defs(alloc, &plan.design, index.bases.as_slice())?;
    let subject = Subject {
        design: &plan.design,
        sizes,
        units: plan.units.as_slice(),
        types: types.as_slice(),
        leaf: &leaf,
        choice: &choice,
        timed: &timed,
        table: table.as_slice(),
    };
    match tell_subject(alloc, &subject, bits, budgets) {
        Ok(verdict) => Ok(Told {
            params: leaf.params,
            verdict,
        }),
        Err(refusal) => Err(refusal),
    }
}

// All warnings, in the order of their places.
ghost use Rattle.std.specs.Prelude.{◌≡◌, ◌++◌, ◌∷◌, [], IfOk, OnOk};
ghost use Rattle.smv_look_lint.specs.Lint as spec;
ghost use Rattle.smv_look_lint.specs.Lint.{definition_warnings, doubt_warnings, family_warnings, free_warning, idle_warning, known_of, unread_warning, value_warnings, warnings_from, warnings_of};
ghost use Rattle.smv_look_lint.specs.Marks.{IsSameKnown, held_by};
ghost use Rattle.smv_look_lint.specs.Strays.{warning};

use crate::marks::{is_noted, set_of};
use crate::once::{doubts_of, push_one_each};
use crate::roles::names_declared;
use crate::signals::{families_defined, families_mapped, families_picked, families_read};
use crate::strays::push_def;
use crate::warnings::{Flaw, Warning};
use smv_core::flat::{Design, Family};
use smv_core::tree::{Role, Text};
use smv_problem::Plan;
use std::alloc::{AllocError, Global};
use std::collections::HashSet;

// What is known of the families of a design, as sets of numbers and of places.
#[derive(Drop)]
struct Marks {
    defined: HashSet<u32>,
    read: HashSet<u32>,
    mapped: HashSet<u32>,
    picked: HashSet<u32>,
    inputs: HashSet<u32>,
    outputs: HashSet<u32>,
}

// What is known of the families of a plan.
fn marks_of(alloc: Global, tree: &Text, plan: &Plan) -> Result<Marks, AllocError>
    ensures { IfOk result (λ marks. IsSameKnown (held_by marks) (known_of tree.now plan.now)) }
{
    let design = &plan.design;
    let all_defined = families_defined(alloc, design)?;
    let all_read = families_read(alloc, design)?;
    let all_mapped = families_mapped(alloc, design, plan.units.as_slice())?;
    let all_picked = families_picked(alloc, plan.choices.as_slice())?;
    let all_inputs = names_declared(alloc, Role::Input, tree)?;
    let all_outputs = names_declared(alloc, Role::Output, tree)?;
    let defined = set_of(alloc, all_defined.as_slice())?;
    let read = set_of(alloc, all_read.as_slice())?;
    let mapped = set_of(alloc, all_mapped.as_slice())?;
    let picked = set_of(alloc, all_picked.as_slice())?;
    let inputs = set_of(alloc, all_inputs.as_slice())?;
    let outputs = set_of(alloc, all_outputs.as_slice())?;
    Ok(Marks {
        defined,
        read,
        mapped,
        picked,
        inputs,
        outputs,
    })
}

// Notes what is wrong with the family of this number.
fn push(out: &mut Vec<Warning>, family: u16, at: u32, flaw: Flaw) -> Result<(), AllocError>
    ensures { OnOk result (out.new.items ≡ out.old.items ++ warning family at flaw ∷ []) }
{
    out.push(Warning { family, flaw, at })?;
    Ok(())
}

// What is wrong with a family without a base definition.
fn push_free(
    out: &mut Vec<Warning>,
    marks: &Marks,
    number: u16,
    family: &Family,
) -> Result<(), AllocError>
    ensures { OnOk result (out.new.items ≡ out.old.items ++ free_warning (held_by marks.now) number family.now) }
{
    if is_noted(&marks.defined, u32::from(number)) {
        Ok(())
    } else if family.is_abstract {
        push(out, number, family.at, Flaw::Undefined)
    } else if is_noted(&marks.inputs, family.at) {
        Ok(())
    } else {
        push(out, number, family.at, Flaw::Unassigned)
    }
}

// What is wrong with a family that nothing reads and that is no output.
fn push_idle(
    out: &mut Vec<Warning>,
    marks: &Marks,
    number: u16,
    family: &Family,
) -> Result<(), AllocError>
    ensures { OnOk result (out.new.items ≡ out.old.items ++ idle_warning (held_by marks.now) number family.now) }
{
    if is_noted(&marks.mapped, u32::from(number)) {
        if is_noted(&marks.picked, u32::from(number)) {
            Ok(())
        } else {
            push(out, number, family.at, Flaw::Unapplied)
        }
    } else if family.is_abstract || is_noted(&marks.inputs, family.at) {
        push(out, number, family.at, Flaw::Unused)
    } else {
        push(out, number, family.at, Flaw::Unread)
    }
}

// What is wrong with a family, if nothing reads it.
fn push_unread(
    out: &mut Vec<Warning>,
    marks: &Marks,
    number: u16,
    family: &Family,
) -> Result<(), AllocError>
    ensures { OnOk result (out.new.items ≡ out.old.items ++ unread_warning (held_by marks.now) number family.now) }
{
    if is_noted(&marks.read, u32::from(number)) || is_noted(&marks.outputs, family.at) {
        Ok(())
    } else {
        push_idle(out, marks, number, family)
    }
}

// What is wrong with a family.
#[tactic(auto, using(crate::proofs::Listing::listing))]
fn push_family(
    out: &mut Vec<Warning>,
    marks: &Marks,
    number: u16,
    family: &Family,
) -> Result<(), AllocError>
    ensures { OnOk result (out.new.items ≡ out.old.items ++ family_warnings (held_by marks.now) number family.now) }
{
    push_free(out, marks, number, family)?;
    push_unread(out, marks, number, family)
}

// What is wrong with each family.
#[tactic(auto, using(crate::proofs::Listing::listing))]
fn push_families(
    out: &mut Vec<Warning>,
    marks: &Marks,
    families: &[Family],
) -> Result<(), AllocError>
    ensures { OnOk result (out.new.items ≡ out.old.items ++ warnings_from (held_by marks.now) 0 families.now) }
{
    for (index, family) in families.iter().enumerate() {
        let Ok(number) = u16::try_from(index) else {
            return Err(AllocError);
        };
        push_family(out, marks, number, family)?;
    }
    Ok(())
}

// The values that definitions give their signals and that these do not have.
#[tactic(auto, using(crate::proofs::Listing::listing))]
fn push_values(out: &mut Vec<Warning>, design: &Design) -> Result<(), AllocError>
    ensures { OnOk result (out.new.items ≡ out.old.items ++ value_warnings design.now) }
{
    for def in design.defs.as_slice() {
        push_def(out, design.families.as_slice(), def)?;
    }
    Ok(())
}

// What is doubted of the definitions, at each place once.
#[tactic(auto, using(crate::proofs::Listing::listing))]
fn push_once(out: &mut Vec<Warning>, alloc: Global, design: &Design) -> Result<(), AllocError>
    ensures { OnOk result (out.new.items ≡ out.old.items ++ doubt_warnings design.now) }
{
    let doubts = in_order(doubts_of(alloc, design)?)?;
    push_one_each(out, doubts.as_slice())
}

// What is wrong with the definitions.
#[tactic(auto, using(crate::proofs::Listing::listing))]
fn push_definitions(
    out: &mut Vec<Warning>,
    alloc: Global,
    design: &Design,
) -> Result<(), AllocError>
    ensures { OnOk result (out.new.items ≡ out.old.items ++ definition_warnings design.now) }
{
    push_values(out, design)?;
    push_once(out, alloc, design)
}

// By their places.
fn in_order(mut warnings: Vec<Warning>) -> Result<Vec<Warning>, AllocError>
    ensures { IfOk result (λ sorted. sorted.items ≡ spec.in_order warnings.items) }
{
    warnings.sort_by_key(|w| w.at)?;
    Ok(warnings)
}

/// The warnings of a text's tree and plan, in the order of their places. Also where a family's number does not fit its field, which no text within the limits has, there is an error.
pub(crate) fn warnings_of(
    alloc: Global,
    tree: &Text,
    plan: &Plan,
) -> Result<Vec<Warning>, AllocError>
    ensures { IfOk result (λ warnings. warnings.items ≡ warnings_of tree.now plan.now) }
{
    let marks = marks_of(alloc, tree, plan)?;
    let mut warnings = Vec::new(alloc);
    push_definitions(&mut warnings, alloc, &plan.design)?;
    push_families(&mut warnings, &marks, plan.design.families.as_slice())?;
    in_order(warnings)
}

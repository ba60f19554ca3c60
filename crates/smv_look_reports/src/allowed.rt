// What the maps of units that are false allow.
ghost use Rattle.std.specs.Prelude.{◌≡◌, ◌++◌, length, map, option_copied, IfOk, OnOk};
ghost use Rattle.law_obligations.specs.Units.{units_of};
ghost use Rattle.law_problems.specs.Parts.{IsPart, case_with};
ghost use Rattle.law_reports.specs.Lines.{with_commas};
ghost use Rattle.law_read_reports.specs.Shown as shown;
ghost use Rattle.law_valid_texts.specs.Faultless.{script_of_plan};
ghost use Rattle.law_valid_texts.specs.Rooms.{IsWholePlan};
ghost use Rattle.smv_look_reports.specs.Allowed.{AreAllowedBy, AreAllowedByAll, allowed_lines, some_line, values_line};
ghost use Rattle.smv_look_reports.specs.Cases.{HasCase, HaveCases};

use crate::values::push_value_of;
use smv_core::Seq;
use smv_core::flat::{Choice, Design, Element, Leaf, Timed, Unit};
use smv_look_allowed::allowed_values;
use smv_problem::{AbsValue, Plan, UnitResult, Verdict};
use std::alloc::{AllocError, Global};

// What the map of a unit with this verdict allows.
fn values_by(
    alloc: Global,
    design: &Design,
    units: &[Unit],
    leaf: &Leaf,
    choice: &Choice,
    timed: &Timed,
    verdict: &Verdict,
) -> Result<Seq<AbsValue>, AllocError>
    requires units { units.now ≡ units_of design.now }
    requires part { IsPart design.now leaf.now choice.now }
    requires case { HasCase design.now leaf.now choice.now verdict.now }
    ensures { IfOk result (λ values. AreAllowedBy (case_with design.now leaf.now choice.now timed.now) verdict.now values) }
{
    match verdict {
        Verdict::False { case, path, .. } => allowed_values(
            alloc,
            design,
            units,
            leaf,
            choice,
            timed,
            case,
            path.as_slice(),
        ),
        Verdict::True => Ok(Seq::new(alloc)),
        Verdict::UnknownNodes { .. } => Ok(Seq::new(alloc)),
        Verdict::UnknownSteps { .. } => Ok(Seq::new(alloc)),
    }
}

/// For each unit of a plan the values that its map allows its element for certain, where the unit is false: at the last time of the path, in the order of the type.
pub fn allowed_by_all(
    alloc: Global,
    plan: &Plan,
    results: &[UnitResult],
) -> Result<Seq<Seq<AbsValue>>, AllocError>
    requires whole { IsWholePlan plan.now }
    requires timed { length plan.now.timed ≡ length plan.now.units }
    requires results { length results.now ≡ length plan.now.units }
    requires cases { HaveCases plan.now results.now }
    ensures { IfOk result (λ allowed. AreAllowedByAll (script_of_plan plan.now) results.now allowed) }
{
    let units = plan.units.as_slice();
    let leaves = plan.leaves.as_slice();
    let choices = plan.choices.as_slice();
    let timed = plan.timed.as_slice();
    let mut allowed = Seq::new(alloc);
    for u in 0..results.len() {
        let values = values_by(
            alloc,
            &plan.design,
            units,
            &leaves[u],
            &choices[u],
            &timed[u],
            &results[u].verdict,
        )?;
        allowed.push(values)?;
    }
    Ok(allowed)
}

// Writes the values of an element, with commas between them.
#[tactic(auto, using(smv_report_lines::proofs::Parts::one_more, smv_report_lines::proofs::Parts::without))]
fn push_values(
    out: &mut Vec<u8>,
    design: &Design,
    x: &Element,
    values: &[AbsValue],
) -> Result<(), AllocError>
    ensures { OnOk result (out.new.items ≡ out.old.items ++ with_commas (map (shown.value_name design.now x.now) values.now)) }
{
    let mut separator: &[u8] = b"";
    for value in values {
        out.extend_from_slice(separator)?;
        push_value_of(out, design, x, *value)?;
        separator = b", ";
    }
    Ok(())
}

// Writes the line of values that are allowed.
fn push_some(
    out: &mut Vec<u8>,
    design: &Design,
    x: &Element,
    values: &[AbsValue],
) -> Result<(), AllocError>
    ensures { OnOk result (out.new.items ≡ out.old.items ++ some_line (map (shown.value_name design.now x.now) values.now)) }
{
    out.extend_from_slice(b" the map allows ")?;
    push_values(out, design, x, values)?;
    out.push(b'\n')?;
    Ok(())
}

// Writes the line of these values of an element.
#[tactic(auto, using(crate::proofs::AllowedLaws::line_of_some))]
fn push_line(
    out: &mut Vec<u8>,
    design: &Design,
    x: &Element,
    values: &[AbsValue],
) -> Result<(), AllocError>
    ensures { OnOk result (out.new.items ≡ out.old.items ++ values_line (map (shown.value_name design.now x.now) values.now)) }
{
    match values {
        [] => out.extend_from_slice(b" the map allows no value for certain\n"),
        _ => push_some(out, design, x, values),
    }
}

/// Writes what the map of this element allows, and nothing of a claim.
pub(crate) fn push_allowed(
    out: &mut Vec<u8>,
    design: &Design,
    target: Option<&Element>,
    values: &[AbsValue],
) -> Result<(), AllocError>
    ensures { OnOk result (out.new.items ≡ out.old.items ++ allowed_lines design.now (option_copied target.entry) values.now) }
{
    match target {
        Some(x) => push_line(out, design, x, values),
        None => Ok(()),
    }
}

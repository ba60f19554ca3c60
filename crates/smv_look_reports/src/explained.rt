// All units of a report.
ghost use Rattle.std.specs.Prelude.{◌≡◌, ◌++◌, length, IfOk, OnOk};
ghost use Rattle.law_obligations.specs.Units.{units_of};
ghost use Rattle.law_problems.specs.Parts.{IsCaseOf, IsPart};
ghost use Rattle.law_reports.specs.Lines as report;
ghost use Rattle.smv_look_reports.specs.Cases.{AreParts, HasCase, HaveCases};
ghost use Rattle.smv_look_reports.specs.Explained as spec;
ghost use Rattle.smv_look_reports.specs.Cones.{unknown_lines};
ghost use Rattle.smv_look_reports.specs.Explained.{false_lines, unit_lines, units_lines};
ghost use Rattle.smv_look_reports.specs.Leans.{true_lines};
ghost use Rattle.smv_report_lines.specs.Generated.{proved_line};
ghost use Rattle.smv_unit_tables.specs.Units.{AreNoted};

use crate::allowed::push_allowed;
use crate::cones::push_unknown;
use crate::leans::push_true;
use crate::paths::push_path;
use smv_core::Seq;
use smv_core::flat::{Case, Choice, Design, Element, Leaf, Timed, Unit};
use smv_look_lines::{push_choice, target_of};
use smv_problem::{AbsState, AbsValue, Plan, UnitResult, Verdict};
use smv_report_lines::push_number;
use smv_unit_tables::units::UnitTable;
use std::alloc::{AllocError, Global};

/// A unit of a design, with its leaf, its choice, the times of its uses, what is decided of it and what its map allows.
#[derive(Clone, Copy)]
pub(crate) struct Decided<'a> {
    pub design: &'a Design,
    pub units: &'a [Unit],
    pub unit: Unit,
    pub leaf: &'a Leaf,
    pub choice: &'a Choice,
    pub times: &'a Timed,
    pub told: &'a UnitResult,
    pub allowed: &'a [AbsValue],
}

// Writes the path of a unit that is false, what its map allows, and what its proof uses.
fn push_false(
    out: &mut Vec<u8>,
    alloc: Global,
    unit: &Decided,
    case: &Case,
    elements: &[Element],
    path: &[AbsState],
) -> Result<(), AllocError>
    ensures { OnOk result (out.new.items ≡ out.old.items ++ false_lines unit.now.design.now unit.now.unit unit.now.choice.now unit.now.times.now unit.now.told.now unit.now.allowed.now case.now elements.now path.now) }
{
    let design = unit.design;
    let target = target_of(alloc, design, case.classes.as_slice(), unit.unit)?;
    let told = unit.told;
    push_path(
        out,
        alloc,
        design,
        target.as_ref(),
        told.name.as_bytes(),
        told.params.as_slice(),
        case,
        elements,
        path,
    )?;
    push_allowed(out, design, target.as_ref(), unit.allowed)?;
    push_choice(out, design, unit.choice, unit.times)
}

// Writes what is shown of a unit that is unknown by this case.
fn push_undecided(
    out: &mut Vec<u8>,
    alloc: Global,
    unit: &Decided,
    case: &Case,
) -> Result<(), AllocError>
    requires units { unit.now.units.now ≡ units_of unit.now.design.now }
    requires part { IsPart unit.now.design.now unit.now.leaf.now unit.now.choice.now }
    requires case { IsCaseOf unit.now.design.now unit.now.leaf.now unit.now.choice.now case.now.classes }
    ensures { OnOk result (out.new.items ≡ out.old.items ++ unknown_lines (record { design = unit.now.design.now; units = unit.now.units.now }) unit.now.unit unit.now.leaf.now unit.now.choice.now unit.now.told.now case.now) }
{
    push_unknown(
        out,
        alloc,
        unit.design,
        unit.units,
        unit.unit,
        unit.leaf,
        unit.choice,
        unit.told,
        case,
    )
}

// Writes what a unit that is true leans on.
fn push_leaning(
    out: &mut Vec<u8>,
    alloc: Global,
    unit: &Decided,
    noted: &UnitTable,
    results: &[UnitResult],
) -> Result<(), AllocError>
    requires { AreNoted unit.now.design.now unit.now.units.now noted.now }
    ensures { OnOk result (out.new.items ≡ out.old.items ++ true_lines (record { design = unit.now.design.now; units = unit.now.units.now }) results.now unit.now.choice.now unit.now.told.now) }
{
    push_true(
        out,
        alloc,
        unit.design,
        unit.units,
        noted,
        results,
        unit.choice,
        unit.told,
    )
}

// Writes what the verdict of a unit is about.
fn push_unit(
    out: &mut Vec<u8>,
    alloc: Global,
    unit: &Decided,
    noted: &UnitTable,
    results: &[UnitResult],
) -> Result<(), AllocError>
    requires units { unit.now.units.now ≡ units_of unit.now.design.now }
    requires part { IsPart unit.now.design.now unit.now.leaf.now unit.now.choice.now }
    requires case { HasCase unit.now.design.now unit.now.leaf.now unit.now.choice.now unit.now.told.now.verdict }
    requires noted { AreNoted unit.now.design.now unit.now.units.now noted.now }
    ensures { OnOk result (out.new.items ≡ out.old.items ++ unit_lines (record { design = unit.now.design.now; units = unit.now.units.now }) results.now unit.now.unit unit.now.leaf.now unit.now.choice.now unit.now.times.now unit.now.told.now unit.now.allowed.now) }
{
    match &unit.told.verdict {
        Verdict::True => push_leaning(out, alloc, unit, noted, results),
        Verdict::False {
            case,
            elements,
            path,
        } => push_false(out, alloc, unit, case, elements.as_slice(), path.as_slice()),
        Verdict::UnknownNodes { case, count: _ } => push_undecided(out, alloc, unit, case),
        Verdict::UnknownSteps { case } => push_undecided(out, alloc, unit, case),
    }
}

// Whether a verdict is true.
fn is_true(verdict: &Verdict) -> bool
    ensures { result ≡ report.is_true verdict.now }
{
    matches!(verdict, Verdict::True)
}

/// Whether every unit is true.
pub fn are_all_true(results: &[UnitResult]) -> bool
    ensures { result ≡ spec.are_all_true results.now }
{
    results.iter().all(|told| is_true(&told.verdict))
}

// Writes how many units are true, and how many there are.
fn push_proved(out: &mut Vec<u8>, design: &Design, results: &[UnitResult]) -> Result<(), AllocError>
    ensures { OnOk result (out.new.items ≡ out.old.items ++ proved_line (record { design = design.now; units = results.now })) }
{
    let proved = results.iter().filter(|told| is_true(&told.verdict)).count();
    out.extend_from_slice(b"proved ")?;
    push_number(out, proved)?;
    out.extend_from_slice(b" of ")?;
    push_number(out, results.len())?;
    out.push(b'\n')?;
    Ok(())
}

// Writes what the verdict of each unit is about.
fn push_units(
    out: &mut Vec<u8>,
    alloc: Global,
    plan: &Plan,
    noted: &UnitTable,
    results: &[UnitResult],
    allowed: &[Seq<AbsValue>],
) -> Result<(), AllocError>
    requires units { plan.now.units ≡ units_of plan.now.design }
    requires leaves { length plan.now.leaves ≡ length plan.now.units }
    requires choices { length plan.now.choices ≡ length plan.now.units }
    requires timed { length plan.now.timed ≡ length plan.now.units }
    requires results { length results.now ≡ length plan.now.units }
    requires parts { AreParts plan.now }
    requires cases { HaveCases plan.now results.now }
    requires allowed { length allowed.now ≡ length plan.now.units }
    requires noted { AreNoted plan.now.design plan.now.units noted.now }
    ensures { OnOk result (out.new.items ≡ out.old.items ++ units_lines plan.now results.now allowed.now) }
{
    let units = plan.units.as_slice();
    let leaves = plan.leaves.as_slice();
    let choices = plan.choices.as_slice();
    let timed = plan.timed.as_slice();
    for u in 0..units.len() {
        let unit = Decided {
            design: &plan.design,
            units,
            unit: units[u],
            leaf: &leaves[u],
            choice: &choices[u],
            times: &timed[u],
            told: &results[u],
            allowed: allowed[u].as_slice(),
        };
        push_unit(out, alloc, &unit, noted, results)?;
    }
    Ok(())
}

/// What `explain` writes of the results of a plan's units, where so much is allowed by their maps: of a false one its path as a table, with what its map allows at the end of it and what its proof uses; of an unknown one the bits of its case, and the elements that have most of them; of a true one the units that its proof uses and that are not true; and how many are true.
pub fn explain_lines(
    alloc: Global,
    plan: &Plan,
    results: &[UnitResult],
    allowed: &[Seq<AbsValue>],
) -> Result<Vec<u8>, AllocError>
    requires units { plan.now.units ≡ units_of plan.now.design }
    requires leaves { length plan.now.leaves ≡ length plan.now.units }
    requires choices { length plan.now.choices ≡ length plan.now.units }
    requires timed { length plan.now.timed ≡ length plan.now.units }
    requires results { length results.now ≡ length plan.now.units }
    requires parts { AreParts plan.now }
    requires cases { HaveCases plan.now results.now }
    requires allowed { length allowed.now ≡ length plan.now.units }
    ensures { IfOk result (λ lines. lines.items ≡ spec.explain_lines plan.now (record { design = plan.now.design; units = results.now }) allowed.now) }
{
    let noted = UnitTable::of(alloc, &plan.design, plan.units.as_slice())?;
    let mut out = Vec::new(alloc);
    push_units(&mut out, alloc, plan, &noted, results, allowed)?;
    push_proved(&mut out, &plan.design, results)?;
    Ok(out)
}

// What a true unit leans on.
ghost use Rattle.std.specs.Prelude.{◌≡◌, ◌++◌, flat_map, IfOk, OnOk};
ghost use Rattle.law_obligations.specs.Outlines as outlines;
ghost use Rattle.smv_look_reports.specs.Leans as spec;
ghost use Rattle.smv_look_reports.specs.Leans.{claim_lean, lean_at, lean_line, lean_text, leans, pick_lean, true_lines, under};
ghost use Rattle.smv_unit_tables.specs.Units.{AreNoted};

use smv_core::flat::{Assumed, Choice, Design, Pick, Unit};
use smv_problem::{UnitResult, Verdict};
use smv_report_lines::push_heading;
use smv_unit_tables::units::UnitTable;
use std::alloc::{AllocError, Global};

// Writes the line of a unit of this name, which is so.
fn push_lean_line(out: &mut Vec<u8>, name: &[u8], word: &[u8]) -> Result<(), AllocError>
    ensures { OnOk result (out.new.items ≡ out.old.items ++ lean_line name.now word.now) }
{
    out.extend_from_slice(b" leans on ")?;
    out.extend_from_slice(name)?;
    out.extend_from_slice(b", which is ")?;
    out.extend_from_slice(word)?;
    out.push(b'\n')?;
    Ok(())
}

// Writes the line of a unit that is used, where it is not true.
fn push_lean(out: &mut Vec<u8>, name: &[u8], verdict: &Verdict) -> Result<(), AllocError>
    ensures { OnOk result (out.new.items ≡ out.old.items ++ lean_text name.now verdict.now) }
{
    match verdict {
        Verdict::True => Ok(()),
        Verdict::False {
            case: _,
            elements: _,
            path: _,
        } => push_lean_line(out, name, b"false"),
        Verdict::UnknownNodes { case: _, count: _ } => push_lean_line(out, name, b"unknown"),
        Verdict::UnknownSteps { case: _ } => push_lean_line(out, name, b"unknown"),
    }
}

// Writes that of the unit at a place.
fn push_lean_at(
    out: &mut Vec<u8>,
    results: &[UnitResult],
    place: Option<usize>,
) -> Result<(), AllocError>
    ensures { OnOk result (out.new.items ≡ out.old.items ++ lean_at results.now place) }
{
    match place {
        None => Ok(()),
        Some(v) => match results.get(v) {
            None => Ok(()),
            Some(used) => push_lean(out, used.name.as_bytes(), &used.verdict),
        },
    }
}

// The place of the unit that a pick names.
fn picked_unit(design: &Design, units: &[Unit], noted: &UnitTable, pick: Pick) -> Option<usize>
    requires { AreNoted design.now units.now noted.now }
    ensures { result ≡ outlines.picked_unit (record { design = design.now; units = units.now }) pick }
{
    match pick.layer {
        None => None,
        Some(layer) => noted.map(pick.family, layer),
    }
}

// The place of the unit of a claim.
fn claim_unit(design: &Design, units: &[Unit], noted: &UnitTable, claim: u16) -> Option<usize>
    requires { AreNoted design.now units.now noted.now }
    ensures { result ≡ outlines.claim_unit (record { design = design.now; units = units.now }) claim }
{
    noted.claim(claim)
}

// Writes the lines of the units whose maps are chosen.
fn push_pick_leans(
    out: &mut Vec<u8>,
    design: &Design,
    units: &[Unit],
    noted: &UnitTable,
    results: &[UnitResult],
    picks: &[Pick],
) -> Result<(), AllocError>
    requires { AreNoted design.now units.now noted.now }
    ensures { OnOk result (out.new.items ≡ out.old.items ++ flat_map (pick_lean (record { design = design.now; units = units.now }) results.now) picks.now) }
{
    for pick in picks {
        push_lean_at(out, results, picked_unit(design, units, noted, *pick))?;
    }
    Ok(())
}

// Writes the lines of the claims that are assumed.
fn push_claim_leans(
    out: &mut Vec<u8>,
    design: &Design,
    units: &[Unit],
    noted: &UnitTable,
    results: &[UnitResult],
    claims: &[Assumed],
) -> Result<(), AllocError>
    requires { AreNoted design.now units.now noted.now }
    ensures { OnOk result (out.new.items ≡ out.old.items ++ flat_map (claim_lean (record { design = design.now; units = units.now }) results.now) claims.now) }
{
    for used in claims {
        push_lean_at(out, results, claim_unit(design, units, noted, used.claim))?;
    }
    Ok(())
}

// The lines of all units that a proof uses and that are not true.
fn leans_of(
    alloc: Global,
    design: &Design,
    units: &[Unit],
    noted: &UnitTable,
    results: &[UnitResult],
    choice: &Choice,
) -> Result<Vec<u8>, AllocError>
    requires { AreNoted design.now units.now noted.now }
    ensures { IfOk result (λ lines. lines.items ≡ leans (record { design = design.now; units = units.now }) results.now choice.now) }
{
    let mut lines = Vec::new(alloc);
    push_pick_leans(
        &mut lines,
        design,
        units,
        noted,
        results,
        choice.picks.as_slice(),
    )?;
    push_claim_leans(
        &mut lines,
        design,
        units,
        noted,
        results,
        choice.claims.as_slice(),
    )?;
    Ok(lines)
}

// Writes lines below a line, and nothing where there are none.
#[tactic(auto, using(crate::proofs::Steps::under_some))]
fn push_under(out: &mut Vec<u8>, head: &[u8], lines: &[u8]) -> Result<(), AllocError>
    ensures { OnOk result (out.new.items ≡ out.old.items ++ under head.now lines.now) }
{
    match lines {
        [] => Ok(()),
        _ => {
            out.extend_from_slice(head)?;
            out.extend_from_slice(lines)
        }
    }
}

/// Writes what a true unit leans on: its line in the report, and a line for each unit that its proof uses and that is not true. Where there is none, nothing is written.
pub(crate) fn push_true(
    out: &mut Vec<u8>,
    alloc: Global,
    design: &Design,
    units: &[Unit],
    noted: &UnitTable,
    results: &[UnitResult],
    choice: &Choice,
    told: &UnitResult,
) -> Result<(), AllocError>
    requires { AreNoted design.now units.now noted.now }
    ensures { OnOk result (out.new.items ≡ out.old.items ++ true_lines (record { design = design.now; units = units.now }) results.now choice.now told.now) }
{
    let lines = leans_of(alloc, design, units, noted, results, choice)?;
    let mut head = Vec::new(alloc);
    push_heading(&mut head, told.name.as_bytes(), &told.verdict)?;
    push_under(out, head.as_slice(), lines.as_slice())
}

//! The lines of a report: of each unit what is decided of it, with the case and the path that show it, and how many units are true.
//!
//! For the top call. It meets `law_reports`' `specs/Lines`, byte by byte; `specs/Generated` has the two lines of a generated design. `values` writes classes, values and elements, `paths` the lines that stand
//! below a unit's. The two parts of a unit's lines are written for a unit at given sizes too, the line of a case, an element and a number for `smv_look_lines`, a class and a value for `smv_look_reports`. A report that no call gives is written too: a number that leads nowhere stands for nothing.
#![tactic(auto)]

ghost use Rattle.std.specs.Prelude.{◌≡◌, ◌++◌, IfOk, OnOk};
ghost use Rattle.law_reports.specs.Lines.{is_true, report_lines, verdict_lines};
ghost use Rattle.smv_report_lines.specs.Generated.{generated_lines, proved_line};
ghost use Rattle.smv_report_lines.specs.Parts.{details, heading};

mod paths;
mod values;

pub use paths::push_case;
use paths::push_times;
use smv_core::flat::{Design, Param};
use smv_problem::{Report, UnitResult, Verdict};
use std::alloc::{AllocError, Global};
pub use values::{push_class, push_element, push_number, push_value};

/// The lines of a report: those of each unit in order, and `proved K of M`.
pub fn lines(alloc: Global, report: &Report) -> Result<Vec<u8>, AllocError>
    ensures { IfOk result (λ lines. lines.items ≡ report_lines report.now) }
{
    let mut out = Vec::new(alloc);
    for unit in report.units.as_slice() {
        push_unit(&mut out, &report.design, unit)?;
    }
    push_proved(&mut out, report)?;
    Ok(out)
}

/// The lines of a report of the generated design with so many copies: `generated N` and `proved K of M`.
pub fn generated_lines(alloc: Global, copies: u16, report: &Report) -> Result<Vec<u8>, AllocError>
    ensures { IfOk result (λ lines. lines.items ≡ generated_lines copies report.now) }
{
    let mut out = Vec::from_slice(alloc, b"generated ")?;
    push_number(&mut out, usize::from(copies))?;
    out.push(b'\n')?;
    push_proved(&mut out, report)?;
    Ok(out)
}

// Writes how many units are true, and how many there are.
fn push_proved(out: &mut Vec<u8>, report: &Report) -> Result<(), AllocError>
    ensures { OnOk result (out.new.items ≡ out.old.items ++ proved_line report.now) }
{
    let units = report.units.as_slice();
    let proved = units.iter().filter(|unit| is_true(&unit.verdict)).count();
    out.extend_from_slice(b"proved ")?;
    push_number(out, proved)?;
    out.extend_from_slice(b" of ")?;
    push_number(out, units.len())?;
    out.push(b'\n')?;
    Ok(())
}

// Whether a verdict is true.
fn is_true(verdict: &Verdict) -> bool
    ensures { result ≡ is_true verdict.now }
{
    matches!(verdict, Verdict::True)
}

// Writes the lines of a unit.
#[tactic(auto, using(crate::proofs::Parts::heading_and_details))]
fn push_unit(out: &mut Vec<u8>, design: &Design, unit: &UnitResult) -> Result<(), AllocError>
    ensures { OnOk result (out.new.items ≡ out.old.items ++ verdict_lines design.now unit.now.name unit.now.params unit.now.verdict) }
{
    push_heading(out, unit.name.as_bytes(), &unit.verdict)?;
    push_details(out, design, unit.params.as_slice(), &unit.verdict)
}

/// Writes the line of a unit that says what is decided of it.
pub fn push_heading(out: &mut Vec<u8>, name: &[u8], verdict: &Verdict) -> Result<(), AllocError>
    ensures { OnOk result (out.new.items ≡ out.old.items ++ heading name.now verdict.now) }
{
    out.extend_from_slice(name)?;
    match verdict {
        Verdict::True => out.extend_from_slice(b": true\n"),
        Verdict::False {
            case: _,
            elements: _,
            path,
        } => {
            out.extend_from_slice(b": false at ")?;
            push_number(out, path.len().saturating_sub(1))?;
            out.push(b'\n')?;
            Ok(())
        }
        Verdict::UnknownNodes { case: _, count } => {
            out.extend_from_slice(b": unknown nodes ")?;
            push_number(out, *count)?;
            out.push(b'\n')?;
            Ok(())
        }
        Verdict::UnknownSteps { case: _ } => {
            out.extend_from_slice(b": unknown steps")?;
            out.push(b'\n')?;
            Ok(())
        }
    }
}

/// Writes the lines that show why a unit is not true.
pub fn push_details(
    out: &mut Vec<u8>,
    design: &Design,
    params: &[Param],
    verdict: &Verdict,
) -> Result<(), AllocError>
    ensures { OnOk result (out.new.items ≡ out.old.items ++ details design.now params.now verdict.now) }
{
    match verdict {
        Verdict::True => Ok(()),
        Verdict::False {
            case,
            elements,
            path,
        } => {
            push_case(out, design, params, case)?;
            push_times(out, design, elements.as_slice(), path.as_slice())
        }
        Verdict::UnknownNodes { case, count: _ } => push_case(out, design, params, case),
        Verdict::UnknownSteps { case } => push_case(out, design, params, case),
    }
}

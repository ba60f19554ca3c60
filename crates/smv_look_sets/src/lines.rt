// The lines of what is found.
ghost use Rattle.std.specs.Prelude.{◌≡◌, ◌<◌, Some, IfOk, length, slice_get};
ghost use Rattle.std.specs.List.{flat_map};
ghost use Rattle.law_obligations.specs.Outlines.{Entry};
ghost use Rattle.law_obligations.specs.Units.{script_of};
ghost use Rattle.law_valid_texts.specs.Rooms.{IsWholePlan};
ghost use Rattle.smv_proof.specs.Documents.{set_lines};
ghost use Rattle.smv_look_sets.specs.Sought.{front, open_text, sought_text};

use crate::Sought;
use smv_core::Seq;
use smv_core::flat::{Design, Param, Unit};
use smv_look_lines::count_line;
use smv_problem::{Plan, Verdict};
use smv_proof::{KeptSet, Proof, write_proof};
use smv_report_lines::{push_details, push_heading};
use smv_splits::names::unit_name;
use std::alloc::{AllocError, Global};

// How many bytes stand before the sets in the document of an empty text.
const FRONT: usize = 22;

/// What stands before the sets in the document of a text.
pub fn front_lines(alloc: Global, text: &[u8]) -> Result<Vec<u8>, AllocError>
    ensures { IfOk result (λ lines. lines.items ≡ front text.now) }
{
    let design = Seq::from_vec(Vec::from_slice(alloc, text)?);
    let sets = Seq::new(alloc);
    write_proof(alloc, &Proof { design, sets })
}

/// The lines of what is found of the unit at a place of a plan: of sets those that a document has; of cases that are not all true those of the unit in a report; or how many cases there are. What is found is used up.
pub fn sought_lines(
    alloc: Global,
    plan: &Plan,
    u: usize,
    sought: Sought,
) -> Result<Vec<u8>, AllocError>
    requires plan { IsWholePlan plan.now }
    requires there { u < length plan.now.units }
    ensures { IfOk result (λ lines. (entry : Entry) → slice_get (script_of plan.now.design plan.now.leaves plan.now.choices).entries u ≡ Some entry → lines.items ≡ sought_text plan.now.design entry sought) }
{
    let design = &plan.design;
    let unit = plan.units.as_slice()[u];
    let params = plan.leaves.as_slice()[u].params.as_slice();
    match sought {
        Sought::Sets { sets } => lines_of_sets(alloc, sets),
        Sought::Open { verdict } => open_lines(alloc, design, unit, params, &verdict),
        Sought::NoCase { count } => count_line(alloc, design, unit, count),
    }
}

// The lines of sets: those behind the front of a document with nothing else in it.
fn lines_of_sets(alloc: Global, sets: Seq<KeptSet>) -> Result<Vec<u8>, AllocError>
    ensures { IfOk result (λ lines. lines.items ≡ flat_map set_lines sets) }
{
    let design = Seq::new(alloc);
    let whole = write_proof(alloc, &Proof { design, sets })?;
    Vec::from_slice(alloc, &whole.as_slice()[FRONT..])
}

// The lines of a unit in a report.
#[tactic(auto, using(smv_report_lines::proofs::Parts::heading_and_details))]
fn open_lines(
    alloc: Global,
    design: &Design,
    unit: Unit,
    params: &[Param],
    verdict: &Verdict,
) -> Result<Vec<u8>, AllocError>
    ensures { IfOk result (λ lines. lines.items ≡ open_text design.now unit params.now verdict.now) }
{
    let name = unit_name(alloc, design, unit)?;
    let mut out = Vec::new(alloc);
    push_heading(&mut out, name.as_bytes(), verdict)?;
    push_details(&mut out, design, params, verdict)?;
    Ok(out)
}

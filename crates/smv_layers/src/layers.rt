// The faults of abstract signals outside layers.
ghost use Rattle.std.specs.Prelude.{◌≡◌, map};
ghost use Rattle.law_designs.specs.FirstFault.{first_fault_of_layers};
ghost use Rattle.smv_layers.specs.Leaks as spec;
ghost use Rattle.smv_layers.specs.Leaks.{first_among};

use crate::expressions::{fault_if_abstract, read_fault, read_faults};
use smv_core::fault::Fault;
use smv_core::flat::{Def, DefBody, Design, Family, FlatExpr};
use smv_first_fault::faults::earlier;

// The first fault of an assignment, where this is the first of the conditions around it.
fn assigned_fault(
    families: &[Family],
    family: u16,
    around: Option<Fault>,
    left: &[FlatExpr],
    value: &FlatExpr,
    at: u32,
) -> Option<Fault>
    ensures { result ≡ spec.assigned_fault families.now family around left.now value.now at }
{
    let indexes = earlier(around, read_faults(families, left));
    let read = earlier(indexes, read_fault(families, value));
    earlier(read, fault_if_abstract(families, 20, family, at))
}

// The first fault in a part of a family's definition. A condition is read by the assignments under it.
#[cycle(parts)]
#[tactic(auto, using(crate::proofs::PartLaws::equations))]
fn part_fault(
    families: &[Family],
    family: u16,
    around: Option<Fault>,
    part: &DefBody,
) -> Option<Fault>
    ensures { result ≡ spec.part_fault families.now family around part.now }
{
    match part {
        DefBody::Nothing => None,
        DefBody::Assign {
            left,
            value,
            at,
            ..
        } => assigned_fault(families, family, around, left.as_slice(), value, *at),
        DefBody::If { cond, yes, no } => {
            let around = earlier(around, read_fault(families, cond));
            let first = part_fault(families, family, around, yes.get());
            earlier(first, part_fault(families, family, around, no.get()))
        }
        DefBody::First { parts } => part_faults(families, family, around, parts.as_slice()),
        DefBody::Forall { body, .. } => part_fault(families, family, around, body.get()),
    }
}

#[cycle(parts)]
#[tactic(auto, using(crate::proofs::FaultLaws::in_turn))]
fn part_faults(
    families: &[Family],
    family: u16,
    around: Option<Fault>,
    parts: &[DefBody],
) -> Option<Fault>
    ensures { result ≡ first_among (map (spec.part_fault families.now family around) parts.now) }
{
    let mut found = None;
    for part in parts {
        found = earlier(found, part_fault(families, family, around, part));
    }
    found
}

// The first fault of a definition outside layers.
fn def_fault(families: &[Family], def: &Def) -> Option<Fault>
    ensures { result ≡ spec.def_fault families.now def.now }
{
    if def.layer.is_some() {
        return None;
    }
    let next = part_fault(families, def.family, None, &def.next);
    let later = earlier(next, part_fault(families, def.family, None, &def.comb));
    earlier(part_fault(families, def.family, None, &def.init), later)
}

// The first fault of some definitions.
#[tactic(auto, using(crate::proofs::FaultLaws::in_turn))]
fn def_faults(families: &[Family], defs: &[Def]) -> Option<Fault>
    ensures { result ≡ first_among (map (spec.def_fault families.now) defs.now) }
{
    let mut found = None;
    for def in defs {
        found = earlier(found, def_fault(families, def));
    }
    found
}

/// The first fault of a design among 19 and 20, by place and then by number: a definition outside layers reads or assigns an abstract signal.
pub fn layer_fault(design: &Design) -> Option<Fault>
    ensures { result ≡ first_fault_of_layers design.now }
{
    def_faults(design.families.as_slice(), design.defs.as_slice())
}

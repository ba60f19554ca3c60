// The cases of a leaf, and the abstract form of its set types in a case.
ghost use Rattle.std.specs.Prelude.{◌≡◌, slice_get, unwrap_or, IfOk};
ghost use Rattle.smv_core.specs.declared.flat.Unit.TheVariants as variant;
ghost use Rattle.law_obligations.specs.LeafCases.{leaf_cases};
ghost use Rattle.law_obligations.specs.Outlines.{unit_in};
ghost use Rattle.law_obligations.specs.Units.{units_of};
ghost use Rattle.smv_cases.specs.Faults.{place_of_unit, fault_at_unit, cases_fault, Refuses};
ghost use Rattle.smv_cases.specs.Slots.{classes_of};
ghost use Rattle.smv_cases.specs.Types.{types_of};

use crate::gather::gather;
use crate::rules::type_in;
use crate::slots::{slots, treated};
use smv_core::abstract_type::AbsType;
use smv_core::flat::{Case, Choice, Design, Leaf, Unit};
use smv_core::{Fault, Refusal, Seq};
use std::alloc::{AllocError, Global};

/// The cases of a leaf, in order, or fault 29 at its unit where it has too many parameters or cases. No more than 4,096 are ever made.
pub fn cases(
    alloc: Global,
    design: &Design,
    units: &[Unit],
    leaf: &Leaf,
    choice: &Choice,
) -> Result<Seq<Case>, Refusal>
    requires { units.now ≡ units_of design.now }
    ensures cases { IfOk result (λ cases. classes_of cases ≡ leaf_cases design.now.sets leaf.now.params choice.now.keeps) }
    ensures refuses { Refuses (cases_fault design.now leaf.now choice.now) result }
{
    let sets = design.sets.as_slice();
    match gather(alloc, sets, leaf.params.as_slice(), choice.keeps.as_slice())? {
        Some(cases) => Ok(cases),
        None => Err(Refusal::Fault(fault_at_unit(29, design, units, leaf))),
    }
}

/// The abstract form of each set type in a case.
pub fn abs_types(
    alloc: Global,
    design: &Design,
    case: &Case,
    choice: &Choice,
    leaf: &Leaf,
) -> Result<Seq<AbsType>, AllocError>
    ensures { IfOk result (λ types. types ≡ types_of design.now.sets leaf.now.params choice.now.keeps case.now.classes) }
{
    let sets = design.sets.as_slice();
    let keeps = choice.keeps.as_slice();
    let slots = slots(alloc, sets, leaf.params.as_slice(), keeps)?;
    let mut types = Vec::new(alloc);
    for set in 0..sets.len() {
        let treatment = treated(keeps, set, &sets[set]);
        types.push(type_in(slots.as_slice(), case.classes.as_slice(), treatment, set))?;
    }
    Ok(Seq::from_vec(types))
}

/// A fault at the place of a leaf's unit: the first assignment of a map, the name of a claim.
pub fn fault_at_unit(number: u8, design: &Design, units: &[Unit], leaf: &Leaf) -> Fault
    requires { units.now ≡ units_of design.now }
    ensures { result ≡ fault_at_unit number design.now leaf.now }
{
    let at = place_of_unit(design, unit_at(units, usize::from(leaf.unit)));
    Fault { number, at }
}

// The unit at a place; where there is none it is the first claim.
fn unit_at(units: &[Unit], place: usize) -> Unit
    ensures { result ≡ unwrap_or (slice_get units.now place) (variant.Claim 0) }
{
    match units.get(place) {
        None => Unit::Claim { claim: 0 },
        Some(unit) => *unit,
    }
}

// Where a unit stands.
fn place_of_unit(design: &Design, unit: Unit) -> u32
    ensures { result ≡ place_of_unit (unit_in design.now unit) }
{
    match unit {
        Unit::Map { def } => match design.defs.as_slice().get(usize::from(def)) {
            Some(def) => def.at,
            None => 0,
        },
        Unit::Claim { claim } => match design.claims.as_slice().get(usize::from(claim)) {
            Some(claim) => claim.at,
            None => 0,
        },
    }
}

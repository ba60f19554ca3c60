// The units of a design in flat order.
ghost use Rattle.std.specs.Prelude.{◌≡◌, ◌++◌, map, option_copied, IfOk, OnOk};
ghost use Rattle.law_obligations.specs.Units as spec;
ghost use Rattle.law_obligations.specs.Units.{is_refinement};
ghost use Rattle.smv_unit_tables.specs.Bases.{AreBases};
ghost use Rattle.smv_plans.specs.Units.{maps_from, claims_from};

use smv_core::flat::{Def, Design, Unit};
use smv_core::seq::Seq;
use smv_unit_tables::bases::{base_at, bases};
use std::alloc::{AllocError, Global};

// A number of a unit, where it fits.
fn number(place: usize) -> Result<u16, AllocError>
    ensures { IfOk result (λ number. number ≡ place) }
{
    match u16::try_from(place) {
        Ok(number) => Ok(number),
        Err(_) => Err(AllocError),
    }
}

// Whether a base definition, if there is one, is in this layer.
fn is_base_in(layer: u16, base: Option<&Def>) -> bool
    ensures { result ≡ spec.is_base_in layer (option_copied base.entry) }
{
    match base {
        Some(base) => base.layer == Some(layer),
        None => false,
    }
}

// Whether a definition is a refinement map: it is in a layer, and its family has another base definition or none.
fn is_map(design: &Design, bases: &[usize], def: &Def) -> bool
    requires { AreBases design.now bases.now }
    ensures { result ≡ is_refinement design.now def.now.family def.now.layer }
{
    match def.layer {
        None => false,
        Some(layer) => !is_base_in(layer, base_at(design, bases, usize::from(def.family))),
    }
}

// The refinement maps, each with its place in flat order.
fn maps(alloc: Global, design: &Design) -> Result<Vec<(u32, Unit)>, AllocError>
    ensures { IfOk result (λ out. out.items ≡ maps_from design.now 0 design.now.defs) }
{
    let bases = bases(alloc, design)?;
    let mut out = Vec::new(alloc);
    for (index, def) in design.defs.as_slice().iter().enumerate() {
        if is_map(design, &bases, def) {
            let def_number = number(index)?;
            out.push((def.place, Unit::Map { def: def_number }))?;
        }
    }
    Ok(out)
}

// The claims behind these, each with its place in flat order.
fn add_claims(out: &mut Vec<(u32, Unit)>, design: &Design) -> Result<(), AllocError>
    ensures { OnOk result (out.new.items ≡ out.old.items ++ claims_from 0 design.now.claims) }
{
    for (index, claim) in design.claims.as_slice().iter().enumerate() {
        let claim_number = number(index)?;
        out.push((
            claim.place,
            Unit::Claim {
                claim: claim_number,
            },
        ))?;
    }
    Ok(())
}

// By their places; what stands at one place in the other order, as units are put in order one by one from the last to the first.
fn in_order(mut found: Vec<(u32, Unit)>) -> Result<Vec<(u32, Unit)>, AllocError>
    ensures { IfOk result (λ sorted. sorted.items ≡ spec.in_order found.items) }
{
    found.reverse();
    found.sort_by_key(|unit| unit.0)?;
    Ok(found)
}

// The units without their places.
fn without_places(alloc: Global, found: Vec<(u32, Unit)>) -> Result<Vec<Unit>, AllocError>
    ensures { IfOk result (λ units. units.items ≡ map (λ x. x.1) found.items) }
{
    found.into_iter().map(|placed| placed.1).collect(alloc)
}

/// The units of a design in flat order: its refinement maps and its claims. Also where a number does not fit its field, which no text within the limits has, there is an error.
pub fn units(alloc: Global, design: &Design) -> Result<Seq<Unit>, AllocError>
    ensures { IfOk result (λ units. units ≡ spec.units_of design.now) }
{
    let mut found = maps(alloc, design)?;
    add_claims(&mut found, design)?;
    let sorted = in_order(found)?;
    let units = without_places(alloc, sorted)?;
    Ok(Seq::from_vec(units))
}

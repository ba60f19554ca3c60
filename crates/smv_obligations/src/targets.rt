// The target of a case, and definitions and claims as demands.
ghost use Rattle.std.specs.Prelude.{◌≡◌, [], take, IfOk, option_copied, slice_get};
ghost use Rattle.smv_core.specs.declared.flat.FlatExpr.{Number};
ghost use Rattle.smv_core.specs.declared.flat.Unit.TheVariants as variant;
ghost use Rattle.law_obligations.specs.Outlines.{unit_in, map_in};
ghost use Rattle.smv_problem.specs.declared.problem.Demand.TheVariants.{Holds};
ghost use Rattle.smv_cone.specs.Parts.{entry_of};
ghost use Rattle.smv_obligations.specs.Demands as spec;

use smv_cone::parts::{Part, indexes_of};
use smv_copies::{copy_classes, copy_expression, copy_part};
use smv_core::Seq;
use smv_core::flat::{Claim, Class, Def, Element, FlatExpr, Unit};
use smv_problem::Demand;
use smv_spots::spots::Spot;
use std::alloc::{AllocError, Global};

/// The definition of an element, as a demand.
pub fn defined(alloc: Global, def: &Def, indexes: &[Class]) -> Result<Demand, AllocError>
    ensures { IfOk result (λ demand. demand ≡ spec.defined_in def.now indexes.now) }
{
    let indexes = copy_classes(alloc, indexes)?;
    let init = copy_part(alloc, &def.init)?;
    let next = copy_part(alloc, &def.next)?;
    let comb = copy_part(alloc, &def.comb)?;
    Ok(Demand::Defined {
        element: Element {
            family: def.family,
            indexes,
        },
        init,
        next,
        comb,
    })
}

/// The body of a claim at these spots, as a demand.
pub fn held(alloc: Global, body: &FlatExpr, spots: &[Spot]) -> Result<Demand, AllocError>
    ensures { IfOk result (λ demand. demand ≡ Holds body.now spots.now) }
{
    let body = copy_expression(body, alloc)?;
    let bindings = Vec::from_slice(alloc, spots)?;
    Ok(Demand::Holds {
        body,
        bindings: Seq::from_vec(bindings),
    })
}

// What a unit says that is not there: nothing.
fn nothing_held(alloc: Global) -> Demand
    ensures { result ≡ Holds (Number 1 0) [] }
{
    Demand::Holds {
        body: FlatExpr::Number { value: 1, at: 0 },
        bindings: Seq::new(alloc),
    }
}

// So many classes and spots from the front.
fn first_classes(classes: &[Class], count: usize) -> &[Class]
    ensures { result.now ≡ take count classes.now }
{
    &classes[..count.min(classes.len())]
}

fn first_spots(spots: &[Spot], count: usize) -> &[Spot]
    ensures { result.now ≡ take count spots.now }
{
    &spots[..count.min(spots.len())]
}

// The unit of the leaf.
fn unit_of(part: &Part) -> Unit
    ensures { result ≡ (entry_of part.now).unit }
{
    match part.units.get(part.leaf.unit as usize) {
        None => Unit::Claim { claim: 0 },
        Some(unit) => *unit,
    }
}

// The definition and the claim of a number.
fn def_at<'a>(part: &Part<'a>, def: u16) -> Option<&'a Def>
    ensures { option_copied result ≡ slice_get part.now.view.design.now.defs def }
{
    part.view.design.defs.as_slice().get(def as usize)
}

/// The claim of a number, if there is one.
pub fn claim_at<'a>(part: &Part<'a>, claim: u16) -> Option<&'a Claim>
    ensures { option_copied result ≡ slice_get part.now.view.design.now.claims claim }
{
    part.view.design.claims.as_slice().get(claim as usize)
}

/// The indexes of the target's element, where the unit is this map.
pub(crate) fn own_indexes<'a>(part: &Part<'a>, def: &Def) -> &'a [Class]
    ensures { result.now ≡ spec.own_indexes part.now def.now }
{
    let count = indexes_of(part.view.design, def.family).len();
    first_classes(part.classes, count)
}

// The target that a map is, and that a claim is.
fn map_target(alloc: Global, part: &Part, def: u16) -> Result<Demand, AllocError>
    ensures { IfOk result (λ demand. demand ≡ spec.target_in part.now (unit_in part.now.view.design.now (variant.Map def))) }
{
    match def_at(part, def) {
        None => Ok(nothing_held(alloc)),
        Some(def) => defined(alloc, def, own_indexes(part, def)),
    }
}

fn claim_target(alloc: Global, part: &Part, claim: u16) -> Result<Demand, AllocError>
    ensures { IfOk result (λ demand. demand ≡ spec.target_in part.now (unit_in part.now.view.design.now (variant.Claim claim))) }
{
    match claim_at(part, claim) {
        None => Ok(nothing_held(alloc)),
        Some(claim) => held(
            alloc,
            &claim.body,
            first_spots(part.params, claim.params.len()),
        ),
    }
}

/// The target: what the unit of the leaf says, at its own parameters.
pub fn target(alloc: Global, part: &Part) -> Result<Demand, AllocError>
    ensures { IfOk result (λ demand. demand ≡ spec.target_in part.now (spec.said part.now)) }
{
    match unit_of(part) {
        Unit::Map { def } => map_target(alloc, part, def),
        Unit::Claim { claim } => claim_target(alloc, part, claim),
    }
}

/// The definition of the leaf's unit, if it is a map.
pub(crate) fn own_def<'a>(part: &Part<'a>) -> Option<&'a Def>
    ensures { option_copied result ≡ map_in (spec.said part.now) }
{
    match unit_of(part) {
        Unit::Map { def } => def_at(part, def),
        Unit::Claim { .. } => None,
    }
}

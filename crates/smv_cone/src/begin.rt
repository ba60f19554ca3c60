// With what the search for a cone begins.
ghost use Rattle.std.specs.Prelude.{◌≡◌, ◌++◌, ◌∷◌, [], take, drop, option_copied, slice_get, IfOk, OnOk};
ghost use Rattle.std.specs.List.{flat_map, list_all};
ghost use Rattle.smv_core.specs.declared.flat.Unit.TheVariants as variant;
ghost use Rattle.smv_elements.specs.Elements.{put_all};
ghost use Rattle.smv_reads.specs.Views.{IsView};
ghost use Rattle.smv_cone.specs.Parts.{IsPartView, entry_of, own_in};
ghost use Rattle.smv_cone.specs.Parts as spec;
ghost use Rattle.smv_cone.specs.Begins as begins;

use crate::parts::{Part, indexes_of};
use smv_core::Seq;
use smv_core::flat::{Claim, Class, Def, Element, FlatExpr, Param, Unit};
use smv_elements::Found;
use smv_reads::bindings::{View, first_spots, spots_named};
use smv_reads::{read_definition, read_expression};
use smv_spots::spots::Spot;
use std::alloc::{AllocError, Global};

// A number or a class, and no rest.
fn is_class(class: Class) -> bool
    ensures { result ≡ spec.is_class class }
{
    match class {
        Class::Number { .. } => true,
        Class::Named { .. } => true,
        Class::Rest { .. } => false,
    }
}

fn are_classes(classes: &[Class]) -> bool
    ensures { result ≡ list_all spec.is_class classes.now }
{
    for class in classes {
        if !is_class(*class) {
            return false;
        }
    }
    true
}

// The element of a map, if its indexes are numbers and classes.
#[tactic(auto, using(smv_reads::proofs::Joins::joins))]
fn put_own(
    alloc: Global,
    found: &mut Found,
    family: u16,
    indexes: &[Class],
) -> Result<(), AllocError>
    ensures { OnOk result (found.new ≡ put_all found.old (own_in family indexes.now)) }
{
    if are_classes(indexes) {
        let indexes = Seq::from_vec(Vec::from_slice(alloc, indexes)?);
        found.put(Element { family, indexes }, alloc)
    } else {
        Ok(())
    }
}

// So many classes from the front.
fn first_classes(classes: &[Class], count: usize) -> &[Class]
    ensures { result.now ≡ take count classes.now }
{
    &classes[..count.min(classes.len())]
}

// What a map reads, and its own element.
#[tactic(auto, using(smv_reads::proofs::Joins::joins))]
fn read_map(alloc: Global, part: &Part, found: &mut Found, def: &Def) -> Result<(), AllocError>
    requires { IsView part.now.view }
    ensures { OnOk result (found.new ≡ put_all found.old (begins.read_map part.now def.now)) }
{
    let count = indexes_of(part.view.design, def.family).len();
    put_own(alloc, found, def.family, first_classes(part.classes, count))?;
    read_definition(
        alloc,
        &part.view,
        found,
        first_spots(part.params, count),
        def,
    )
}

// What a claim reads at the parameters of the leaf.
fn read_body(alloc: Global, part: &Part, found: &mut Found, claim: &Claim) -> Result<(), AllocError>
    requires { IsView part.now.view }
    ensures { OnOk result (found.new ≡ put_all found.old (begins.read_body part.now claim.now)) }
{
    let bindings = first_spots(part.params, claim.params.len());
    read_expression(alloc, &part.view, found, bindings, &claim.body)
}

// The unit of the leaf.
fn unit_of(part: &Part) -> Unit
    ensures { result ≡ (entry_of part.now).unit }
{
    match part.units.get(part.leaf.unit as usize) {
        None => Unit::Claim { claim: 0 },
        Some(unit) => *unit,
    }
}

// The definition and the claim of a number.
fn def_at<'a>(part: &Part<'a>, def: u16) -> Option<&'a Def>
    ensures { option_copied result ≡ slice_get part.now.view.design.now.defs def }
{
    part.view.design.defs.as_slice().get(def as usize)
}

fn claim_at<'a>(part: &Part<'a>, claim: u16) -> Option<&'a Claim>
    ensures { option_copied result ≡ slice_get part.now.view.design.now.claims claim }
{
    part.view.design.claims.as_slice().get(claim as usize)
}

// What a unit reads that is a map.
fn read_map_at(alloc: Global, part: &Part, found: &mut Found, def: u16) -> Result<(), AllocError>
    requires { IsPartView part.now }
    ensures { OnOk result (found.new ≡ put_all found.old (begins.read_unit part.now (variant.Map def))) }
{
    match def_at(part, def) {
        None => Ok(()),
        Some(map) => read_map(alloc, part, found, map),
    }
}

// What a unit reads that is a claim.
fn read_claim_at(
    alloc: Global,
    part: &Part,
    found: &mut Found,
    claim: u16,
) -> Result<(), AllocError>
    requires { IsPartView part.now }
    ensures { OnOk result (found.new ≡ put_all found.old (begins.read_unit part.now (variant.Claim claim))) }
{
    match claim_at(part, claim) {
        None => Ok(()),
        Some(said) => read_body(alloc, part, found, said),
    }
}

// What a unit reads.
fn read_unit(alloc: Global, part: &Part, found: &mut Found, unit: Unit) -> Result<(), AllocError>
    requires { IsPartView part.now }
    ensures { OnOk result (found.new ≡ put_all found.old (begins.read_unit part.now unit)) }
{
    match unit {
        Unit::Map { def } => read_map_at(alloc, part, found, def),
        Unit::Claim { claim } => read_claim_at(alloc, part, found, claim),
    }
}

// What the guards read.
#[tactic(auto, using(smv_reads::proofs::Joins::joins))]
fn read_guards(alloc: Global, part: &Part, found: &mut Found) -> Result<(), AllocError>
    requires { IsView part.now.view }
    ensures { OnOk result (found.new ≡ put_all found.old (begins.read_guards part.now)) }
{
    for guard in part.leaf.guards.as_slice() {
        read_expression(alloc, &part.view, found, part.params, &guard.expr)?;
    }
    Ok(())
}

// Some spots with one more.
fn longer(alloc: Global, front: &[Spot], p: Spot) -> Result<Vec<Spot>, AllocError>
    ensures { IfOk result (λ longer. longer.items ≡ front.now ++ p ∷ []) }
{
    let mut longer = Vec::from_slice(alloc, front)?;
    longer.push(p)?;
    Ok(longer)
}

// What an expression reads, where variables behind those in front take all numbers, constants and classes of the types of the parameters from a place on.
#[cycle(instances)]
fn read_instances(
    alloc: Global,
    view: &View,
    found: &mut Found,
    front: &[Spot],
    params: &[Param],
    place: usize,
    body: &FlatExpr,
) -> Result<(), AllocError>
    requires { IsView view.now }
    ensures { OnOk result (found.new ≡ put_all found.old (begins.read_instances view.now front.now (drop place params.now) body.now)) }
{
    if place < params.len() {
        let over = params[place].over;
        let spots = spots_named(alloc, view, over)?;
        let listed = spots.as_slice();
        read_turns(alloc, view, found, front, listed, params, place + 1, body)
    } else {
        read_expression(alloc, view, found, front, body)
    }
}

#[cycle(instances)]
fn read_turns(
    alloc: Global,
    view: &View,
    found: &mut Found,
    front: &[Spot],
    spots: &[Spot],
    params: &[Param],
    place: usize,
    body: &FlatExpr,
) -> Result<(), AllocError>
    requires { IsView view.now }
    ensures { OnOk result (found.new ≡ put_all found.old (flat_map (λ p. begins.read_instances view.now (front.now ++ p ∷ []) (drop place params.now) body.now) spots.now)) }
{
    for p in spots {
        let begun = longer(alloc, front, *p)?;
        let listed = begun.as_slice();
        read_instances(alloc, view, found, listed, params, place, body)?;
    }
    Ok(())
}

// What an assumed claim reads.
fn read_assumed(alloc: Global, part: &Part, found: &mut Found, claim: u16) -> Result<(), AllocError>
    requires { IsView part.now.view }
    ensures { OnOk result (found.new ≡ put_all found.old (begins.read_assumed part.now claim)) }
{
    match claim_at(part, claim) {
        None => Ok(()),
        Some(said) => {
            let params = said.params.as_slice();
            read_instances(alloc, &part.view, found, &[], params, 0, &said.body)
        }
    }
}

#[tactic(auto, using(smv_reads::proofs::Joins::joins))]
fn read_claims(alloc: Global, part: &Part, found: &mut Found) -> Result<(), AllocError>
    requires { IsView part.now.view }
    ensures { OnOk result (found.new ≡ put_all found.old (begins.read_claims part.now)) }
{
    for used in part.choice.claims.as_slice() {
        read_assumed(alloc, part, found, used.claim)?;
    }
    Ok(())
}

/// Puts the elements with which a search begins: what the target reads, with its own element, and what the guards and the assumed claims read.
#[tactic(auto, using(smv_reads::proofs::Joins::joins, crate::proofs::BeginLaws::beginning))]
pub(crate) fn read_first(alloc: Global, part: &Part, found: &mut Found) -> Result<(), AllocError>
    requires { IsPartView part.now }
    ensures { OnOk result (found.new ≡ put_all found.old (begins.read_first part.now)) }
{
    read_unit(alloc, part, found, unit_of(part))?;
    read_guards(alloc, part, found)?;
    read_claims(alloc, part, found)
}

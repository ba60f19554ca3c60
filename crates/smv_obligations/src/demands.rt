// What is demanded at a time.
ghost use Rattle.std.specs.Prelude.{◌≡◌, ◌++◌, ◌∷◌, [], flat_map, zip, drop, slice_get, if◌then◌else◌, IfOk, OnOk};
ghost use Rattle.law_obligations.specs.Problems as problems;
ghost use Rattle.smv_cone.specs.Parts.{IsPartView};
ghost use Rattle.smv_obligations.specs.Demands as spec;

use crate::targets::{claim_at, defined, held, own_def, own_indexes};
use smv_cone::parts::{Part, chosen_in};
use smv_copies::copy_classes;
use smv_core::Seq;
use smv_core::flat::{Assumed, Def, Element, FlatExpr, Param, Pick, Simple, Timed, Timing};
use smv_elements::order::is_same;
use smv_problem::Demand;
use smv_reads::bindings::spot_in;
use smv_reads::indexes::classes_over;
use smv_spots::spots::Spot;
use std::alloc::{AllocError, Global};

// The same time.
fn is_at(time: Timing, other: Timing) -> bool
    ensures { result ≡ problems.is_at time other }
{
    match time {
        Timing::Now => matches!(other, Timing::Now),
        Timing::Before => matches!(other, Timing::Before),
    }
}

// The time of the definition that is chosen for a family: that of its pick; a base definition that no pick names holds now.
fn family_time(picks: &[Pick], times: &[Timing], family: u16) -> Timing
    ensures { result ≡ problems.family_time picks.now times.now family }
{
    for place in 0..picks.len() {
        if place >= times.len() {
            return Timing::Now;
        }
        if picks[place].family == family {
            return times[place];
        }
    }
    Timing::Now
}

// Puts the chosen definition of an element, where it holds at this time.
fn put_chosen(
    alloc: Global,
    part: &Part,
    timed: &Timed,
    time: Timing,
    x: &Element,
    demands: &mut Seq<Demand>,
) -> Result<(), AllocError>
    requires { IsPartView part.now }
    ensures { OnOk result (demands.new ≡ demands.old ++ spec.chosen_in part.now timed.now time x.now) }
{
    let holds = family_time(
        part.choice.picks.as_slice(),
        timed.picks.as_slice(),
        x.family,
    );
    if !is_at(holds, time) {
        return Ok(());
    }
    match chosen_in(part, x.family) {
        None => Ok(()),
        Some(def) => demands.push(defined(alloc, def, x.indexes.as_slice())?),
    }
}

// Puts a definition of the target's element, if it is this one.
fn put_own(
    alloc: Global,
    part: &Part,
    x: &Element,
    def: &Def,
    demands: &mut Seq<Demand>,
) -> Result<(), AllocError>
    ensures { OnOk result (demands.new ≡ demands.old ++ (if spec.is_own part.now def.now x.now then spec.defined_in def.now x.now.indexes ∷ [] else [])) }
{
    let indexes = copy_classes(alloc, own_indexes(part, def))?;
    let own = Element {
        family: def.family,
        indexes,
    };
    if is_same(&own, x) {
        demands.push(defined(alloc, def, x.indexes.as_slice())?)
    } else {
        Ok(())
    }
}

// Puts what a map demands of itself, before.
fn put_itself(
    alloc: Global,
    part: &Part,
    time: Timing,
    x: &Element,
    demands: &mut Seq<Demand>,
) -> Result<(), AllocError>
    ensures { OnOk result (demands.new ≡ demands.old ++ spec.itself_in part.now time x.now) }
{
    if !is_at(time, Timing::Before) {
        return Ok(());
    }
    if !part.choice.itself {
        return Ok(());
    }
    match own_def(part) {
        None => Ok(()),
        Some(def) => put_own(alloc, part, x, def, demands),
    }
}

// Puts what is demanded of an element.
#[tactic(auto, unfolding(crate::specs::Demands::element_in_turn))]
fn put_element(
    alloc: Global,
    part: &Part,
    timed: &Timed,
    time: Timing,
    x: &Element,
    demands: &mut Seq<Demand>,
) -> Result<(), AllocError>
    requires { IsPartView part.now }
    ensures { OnOk result (demands.new ≡ demands.old ++ spec.element_in_turn part.now timed.now time x.now) }
{
    put_chosen(alloc, part, timed, time, x, demands)?;
    put_itself(alloc, part, time, x, demands)
}

// Puts what is demanded of each element.
fn put_elements(
    alloc: Global,
    part: &Part,
    timed: &Timed,
    time: Timing,
    elements: &[Element],
    demands: &mut Seq<Demand>,
) -> Result<(), AllocError>
    requires { IsPartView part.now }
    ensures { OnOk result (demands.new ≡ demands.old ++ flat_map (spec.element_in_turn part.now timed.now time) elements.now) }
{
    for x in elements {
        put_element(alloc, part, timed, time, x, demands)?;
    }
    Ok(())
}

// Where the numbers and classes of an index type lie.
fn spots_of(alloc: Global, part: &Part, over: Simple) -> Result<Vec<Spot>, AllocError>
    requires { IsPartView part.now }
    ensures { IfOk result (λ spots. spots.items ≡ spec.spots_of part.now over) }
{
    let classes = classes_over(alloc, part.view.types, over)?;
    let mut spots = Vec::new(alloc);
    for class in classes.as_slice() {
        spots.push(spot_in(over, *class))?;
    }
    Ok(spots)
}

// Some spots with one more.
fn longer(alloc: Global, front: &[Spot], p: Spot) -> Result<Vec<Spot>, AllocError>
    ensures { IfOk result (λ longer. longer.items ≡ front.now ++ p ∷ []) }
{
    let mut longer = Vec::from_slice(alloc, front)?;
    longer.push(p)?;
    Ok(longer)
}

// Puts the body of a claim where its parameters lie at these spots and, from a place on, at all those of their types.
#[cycle(instances)]
fn put_instances(
    alloc: Global,
    part: &Part,
    front: &[Spot],
    params: &[Param],
    place: usize,
    body: &FlatExpr,
    demands: &mut Seq<Demand>,
) -> Result<(), AllocError>
    requires { IsPartView part.now }
    ensures { OnOk result (demands.new ≡ demands.old ++ spec.held_from part.now front.now (drop place params.now) body.now) }
{
    if place < params.len() {
        let over = params[place].over;
        let spots = spots_of(alloc, part, over)?;
        let listed = spots.as_slice();
        put_turns(alloc, part, front, listed, params, place + 1, body, demands)
    } else {
        demands.push(held(alloc, body, front)?)
    }
}

#[cycle(instances)]
fn put_turns(
    alloc: Global,
    part: &Part,
    front: &[Spot],
    spots: &[Spot],
    params: &[Param],
    place: usize,
    body: &FlatExpr,
    demands: &mut Seq<Demand>,
) -> Result<(), AllocError>
    requires { IsPartView part.now }
    ensures { OnOk result (demands.new ≡ demands.old ++ flat_map (λ p. spec.held_from part.now (front.now ++ p ∷ []) (drop place params.now) body.now) spots.now) }
{
    for p in spots {
        let begun = longer(alloc, front, *p)?;
        let listed = begun.as_slice();
        put_instances(alloc, part, listed, params, place, body, demands)?;
    }
    Ok(())
}

// Puts the instances of the assumed claim of this number.
fn put_claim(
    alloc: Global,
    part: &Part,
    claim: u16,
    demands: &mut Seq<Demand>,
) -> Result<(), AllocError>
    requires { IsPartView part.now }
    ensures { OnOk result (demands.new ≡ demands.old ++ spec.instances_in part.now (slice_get part.now.view.design.now.claims claim)) }
{
    match claim_at(part, claim) {
        None => Ok(()),
        Some(said) => {
            let params = said.params.as_slice();
            put_instances(alloc, part, &[], params, 0, &said.body, demands)
        }
    }
}

// Puts the instances of an assumed claim, where it is assumed at this time.
#[tactic(auto, unfolding(crate::specs::Demands::claim_in_turn))]
fn put_assumed(
    alloc: Global,
    part: &Part,
    time: Timing,
    used: Assumed,
    t: Timing,
    demands: &mut Seq<Demand>,
) -> Result<(), AllocError>
    requires { IsPartView part.now }
    ensures { OnOk result (demands.new ≡ demands.old ++ spec.claim_in_turn part.now time (used, t)) }
{
    if is_at(t, time) {
        put_claim(alloc, part, used.claim, demands)
    } else {
        Ok(())
    }
}

// Puts those of all claims that are assumed at this time.
fn put_claims(
    alloc: Global,
    part: &Part,
    timed: &Timed,
    time: Timing,
    demands: &mut Seq<Demand>,
) -> Result<(), AllocError>
    requires { IsPartView part.now }
    ensures { OnOk result (demands.new ≡ demands.old ++ flat_map (spec.claim_in_turn part.now time) (zip part.now.choice.now.claims timed.now.claims)) }
{
    let claims = part.choice.claims.as_slice();
    let times = timed.claims.as_slice();
    for place in 0..claims.len() {
        if place >= times.len() {
            return Ok(());
        }
        put_assumed(alloc, part, time, claims[place], times[place], demands)?;
    }
    Ok(())
}

/// What is demanded at a time of these elements, and of the assumed claims.
pub fn demands(
    alloc: Global,
    part: &Part,
    timed: &Timed,
    time: Timing,
    elements: &[Element],
) -> Result<Seq<Demand>, AllocError>
    requires { IsPartView part.now }
    ensures { IfOk result (λ demands. demands ≡ spec.demands_in part.now timed.now time elements.now) }
{
    let mut demands = Seq::new(alloc);
    put_elements(alloc, part, timed, time, elements, &mut demands)?;
    put_claims(alloc, part, timed, time, &mut demands)?;
    Ok(demands)
}

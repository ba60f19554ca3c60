// Which values the definition of an element allows it for certain, in states that are read by cells.
ghost use Rattle.std.specs.Prelude.{◌≡◌, List, Option, IfOk, map, option_copied, true};
ghost use Rattle.smv_core.specs.declared.flat.Def.{Def};
ghost use Rattle.law_obligations.specs.Places.{Place, is_among};
ghost use Rattle.law_obligations.specs.May.{AbsState as Abstract};
ghost use Rattle.law_obligations.specs.Obligations.{defined};
ghost use Rattle.smv_spots.specs.Spots.{place_in};
ghost use Rattle.smv_problem.specs.Written.{written_demand};
ghost use Rattle.smv_problem.specs.WellFormed.{OfCases, IsFit};
ghost use Rattle.smv_walks.specs.Demands.{IsDemand};
ghost use Rattle.smv_walks.specs.Given.{IsWritten};
ghost use Rattle.smv_eval.specs.Held.{AreReadBy, IsKept};
ghost use Rattle.smv_eval.specs.Sure.{OfElement, every_of, is_sure as is_sure_of, sure_offer, sure_values as sure_values_of};

use crate::targets::target_at;
use crate::values::{list_for, offered_values};
use smv_cells::Cell;
use smv_conditions::offers::Offer;
use smv_conditions::stores::Plain;
use smv_core::Seq;
use smv_core::flat::{DefBody, Element};
use smv_outcomes::nothing_known;
use smv_problem::{AbsValue, Demand, Problem};
use smv_spots::spots::Spot;
use smv_targets::places_for;
use smv_walks::Way;
use smv_walks::given::target_gives;
use std::alloc::{AllocError, Global};

// Whether the definition of an element allows it this value for certain.
#[tactic(auto, using(crate::proofs::SureLaws::cells_made, crate::proofs::SureLaws::old_made, smv_outcomes::proofs::KnownLaws::none_known, crate::proofs::KnownLaws::none_past))]
fn is_sure(
    alloc: Global,
    problem: &Problem,
    old: Option<&[Cell<bool>]>,
    cells: &[Cell<bool>],
    element: &Element,
    init: &DefBody,
    next: &DefBody,
    comb: &DefBody,
    value: Spot,
) -> Result<bool, AllocError>
    ensures { IfOk result (λ sure. OfElement problem.entry.now (option_copied old.entry) cells.now element.entry.now init.now next.now comb.now (λ p def indexes before now.
        is_among (every_of p def) (place_in p.world.classes value) ≡ true → sure ≡ is_sure_of p def indexes before now (place_in p.world.classes value))) }
{
    let target = target_at(alloc, problem, element, value)?;
    let mut plain = Plain {};
    let family = element.family;
    let mut past = nothing_known(alloc);
    let mut known = nothing_known(alloc);
    let not_sure = target_gives(
        &mut plain,
        alloc,
        problem,
        old,
        &mut past,
        cells,
        &mut known,
        &target,
        Way::Must,
        family,
        init,
        next,
        comb,
    )?;
    Ok(!not_sure)
}

// Each place of an element's type, by whether its definition allows it that for certain.
fn sure_offers(
    alloc: Global,
    problem: &Problem,
    old: Option<&[Cell<bool>]>,
    cells: &[Cell<bool>],
    element: &Element,
    init: &DefBody,
    next: &DefBody,
    comb: &DefBody,
    places: &[Spot],
) -> Result<Vec<Offer<bool>>, AllocError>
    ensures { IfOk result (λ offers. OfElement problem.entry.now (option_copied old.entry) cells.now element.entry.now init.now next.now comb.now (λ p def indexes before now.
        map (place_in p.world.classes) places.now ≡ every_of p def → offers.items ≡ map (sure_offer p def indexes before now) places.now)) }
{
    let mut offers = Vec::new(alloc);
    for place in places {
        let when = is_sure(
            alloc, problem, old, cells, element, init, next, comb, *place,
        )?;
        offers.push(Offer {
            outcome: Some(*place),
            when,
        })?;
    }
    Ok(offers)
}

// Those that are allowed for certain, as values of a state, in the order of the type.
fn element_values(
    alloc: Global,
    problem: &Problem,
    old: Option<&[Cell<bool>]>,
    cells: &[Cell<bool>],
    element: &Element,
    init: &DefBody,
    next: &DefBody,
    comb: &DefBody,
) -> Result<Seq<AbsValue>, AllocError>
    ensures { IfOk result (λ values. OfCases problem.entry.now (λ c. (before : Option Abstract) (now : Abstract) → AreReadBy problem.entry.now (option_copied old.entry) cells.now c.problem before now → (def : Def) (indexes : List Place) →
        IsDemand c.problem (defined def indexes) → IsWritten element.entry.now init.now next.now comb.now c.problem def indexes (λ a. now) → values ≡ sure_values_of c.problem def indexes before now)) }
{
    let places = places_for(alloc, problem, element.family)?;
    let offers = sure_offers(
        alloc,
        problem,
        old,
        cells,
        element,
        init,
        next,
        comb,
        places.as_slice(),
    )?;
    let values = offered_values(
        alloc,
        problem,
        list_for(problem, element.family),
        offers.as_slice(),
    )?;
    Ok(values)
}

/// The values that the definition of an element allows it for certain, in the order of its type; of a demand that is no definition nothing is said.
pub(crate) fn sure_values(
    alloc: Global,
    problem: &Problem,
    old: Option<&[Cell<bool>]>,
    cells: &[Cell<bool>],
    demand: &Demand,
) -> Result<Seq<AbsValue>, AllocError>
    ensures { IfOk result (λ values. OfCases problem.entry.now (λ c. (before : Option Abstract) (now : Abstract) → AreReadBy problem.entry.now (option_copied old.entry) cells.now c.problem before now → (def : Def) (indexes : List Place) →
        demand.entry.now ≡ written_demand c.problem.world.classes (defined def indexes) → IsFit c (defined def indexes) → IsKept c.problem (defined def indexes) → values ≡ sure_values_of c.problem def indexes before now)) }
{
    match demand {
        Demand::Defined {
            element,
            init,
            next,
            comb,
        } => {
            let values = element_values(alloc, problem, old, cells, element, init, next, comb)?;
            Ok(values)
        }
        Demand::Holds { .. } => Ok(Seq::new(alloc)),
    }
}

// Which demands are those of claims or of an element, and which elements they move.
ghost use Rattle.std.specs.Prelude.{◌≡◌, ◌&&◌, List, map, IfOk};
ghost use Rattle.std.specs.List.{list_any};
ghost use Rattle.smv_core.specs.FlatMeaning.{Numbered};
ghost use Rattle.law_obligations.specs.Sets.{Has};
ghost use Rattle.law_obligations.specs.Obligations.{Demanded};
ghost use Rattle.law_obligations.specs.Cones.{AbsElement};
ghost use Rattle.law_reports.specs.CaseLists.{is_by_next, those_of};
ghost use Rattle.smv_spots.specs.Spots.{place_in};
ghost use Rattle.smv_problem.specs.Written.{written_element};
ghost use Rattle.smv_problem.specs.WellFormed.{OfCases};
ghost use Rattle.smv_encode.specs.ChosenDemands.{is_held, is_of, is_moving};
ghost use Rattle.smv_encode.specs.Parts.{AreDemands};

use smv_core::flat::Element;
use smv_elements::order::is_same;
use smv_problem::{Demand, Problem};
use smv_spots::spots::Spot;
use smv_typed_spots::index_spots;
use smv_walks::concerns;
use std::alloc::{AllocError, Global};

/// The body of a claim.
pub(crate) fn is_claim(demand: &Demand) -> bool
    ensures { result ≡ is_held demand.now }
{
    match demand {
        Demand::Defined { .. } => false,
        Demand::Holds { .. } => true,
    }
}

/// The definition of this element.
pub fn defines(element: &Element, demand: &Demand) -> bool
    ensures { result ≡ is_of element.now demand.now }
{
    match demand {
        Demand::Defined { element: own, .. } => is_same(element, own),
        Demand::Holds { .. } => false,
    }
}

// Some `next` of a definition concerns an element of these indexes.
fn is_by_next_at(demand: &Demand, indexes: &[Spot]) -> bool
    ensures { (n : Numbered) → result ≡ is_moving (map (place_in n) indexes.now) demand.now }
{
    match demand {
        Demand::Defined { next, .. } => concerns(next, indexes),
        Demand::Holds { .. } => false,
    }
}

// A demand defines the element, and by `next`.
fn is_moved(demand: &Demand, element: &Element, indexes: &[Spot]) -> bool
    ensures { (n : Numbered) → result ≡ (is_of element.now demand.now && is_moving (map (place_in n) indexes.now) demand.now) }
{
    defines(element, demand) && is_by_next_at(demand, indexes)
}

// Some of these demands defines the element, and by `next`.
fn some_moves(demands: &[Demand], element: &Element, indexes: &[Spot]) -> bool
    ensures { (n : Numbered) → result ≡ list_any (λ d. is_of element.now d && is_moving (map (place_in n) indexes.now) d) demands.now }
{
    for demand in demands {
        if is_moved(demand, element, indexes) {
            return true;
        }
    }
    false
}

/// Whether some of these demands defines the element by `next`.
pub fn moves(
    alloc: Global,
    problem: &Problem,
    demands: &[Demand],
    element: &Element,
) -> Result<bool, AllocError>
    ensures { IfOk result (λ moves. OfCases problem.entry.now (λ c. (x : AbsElement) → Has c.elements x → element.now ≡ written_element x → (ds : List Demanded) → AreDemands c ds demands.now → moves ≡ list_any is_by_next (those_of ds x))) }
{
    let indexes = index_spots(alloc, problem, element)?;
    Ok(some_moves(demands, element, indexes.as_slice()))
}

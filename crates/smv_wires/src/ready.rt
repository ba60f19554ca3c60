// Whether the demands of an element are of the state now alone and read none of the elements that have no cell yet.
ghost use Rattle.std.specs.Prelude.{◌≡◌, [], ◌∷◌, true, List, map, IfOk};
ghost use Rattle.std.specs.List.{list_all};
ghost use Rattle.smv_core.specs.FlatMeaning.{Numbered};
ghost use Rattle.law_obligations.specs.Cones.{AbsElement};
ghost use Rattle.law_wires.specs.Tries.{ReadsDone};
ghost use Rattle.smv_spots.specs.Spots.{place_in};
ghost use Rattle.smv_problem.specs.Written.{written_element};
ghost use Rattle.smv_problem.specs.WellFormed.{OfCases};
ghost use Rattle.smv_encode.specs.Parts.{AreElements};
ghost use Rattle.smv_wires.specs.Ready as spec;

use smv_core::flat::{DefBody, Element};
use smv_elements::order::is_same;
use smv_may_read::may_read_for;
use smv_problem::{Demand, Problem};
use smv_spots::spots::Spot;
use smv_typed_spots::index_spots;
use smv_walks::concerns;
use std::alloc::{AllocError, Global};

// A definition by `:=` of the element of these indexes, which may read none of these elements.
fn is_ready_by(tried: &[Element], element: &Element, indexes: &[Spot], comb: &DefBody) -> bool
    ensures { (n : Numbered) → result ≡ spec.is_ready_by tried.now element.now (map (place_in n) indexes.now) comb.now }
{
    concerns(comb, indexes) && !may_read_for(tried, element.indexes.as_slice(), comb)
}

// A demand that does not define the element, or does so in this way.
fn is_ready_for(tried: &[Element], element: &Element, indexes: &[Spot], demand: &Demand) -> bool
    ensures { (n : Numbered) → result ≡ spec.is_ready_for tried.now element.now (map (place_in n) indexes.now) demand.now }
{
    match demand {
        Demand::Defined {
            element: own,
            comb,
            ..
        } => !is_same(element, own) || is_ready_by(tried, element, indexes, comb),
        Demand::Holds { .. } => true,
    }
}

// Each of these demands.
fn are_ready_for(tried: &[Element], element: &Element, indexes: &[Spot], demands: &[Demand]) -> bool
    ensures { (n : Numbered) → result ≡ list_all (spec.is_ready_for tried.now element.now (map (place_in n) indexes.now)) demands.now }
{
    for demand in demands {
        if !is_ready_for(tried, element, indexes, demand) {
            return false;
        }
    }
    true
}

/// Whether each demand of now that defines the first of these elements is of the state now alone and reads none of them.
pub(crate) fn is_ready(
    alloc: Global,
    problem: &Problem,
    tried: &[Element],
    element: &Element,
) -> Result<bool, AllocError>
    ensures { IfOk result (λ ready. ready ≡ true → OfCases problem.entry.now (λ c. (x : AbsElement) (left : List AbsElement) → AreElements c (x ∷ []) (element.now ∷ []) → tried.now ≡ map written_element (x ∷ left) → ReadsDone c x left)) }
{
    let indexes = index_spots(alloc, problem, element)?;
    let demands = problem.now.as_slice();
    let ready = are_ready_for(tried, element, indexes.as_slice(), demands);
    Ok(ready)
}

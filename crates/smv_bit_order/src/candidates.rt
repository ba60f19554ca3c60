// The elements that are worked out at once, each behind those that it reads.
ghost use Rattle.std.specs.Prelude.{◌≡◌, ◌<◌, ℕ, List, length, map, IfOk};
ghost use Rattle.law_obligations.specs.Sets.{Has};
ghost use Rattle.law_obligations.specs.Cones.{AbsElement};
ghost use Rattle.smv_problem.specs.Written.{written_element};
ghost use Rattle.smv_problem.specs.WellFormed.{OfCases, AreApartElements};
ghost use Rattle.smv_bit_order.specs.Wires.{element_at};

use crate::elements::{Elements, all_known};
use crate::levels::levels;
use crate::order::order_by;
use crate::parts::Parts;
use smv_copies::copy_classes;
use smv_core::flat::{DefBody, Element};
use smv_problem::{Demand, Problem};
use smv_typed_spots::index_spots;
use std::alloc::{AllocError, Global};

// The place of an element that a demand of now defines by `:=`.
fn defined_at_once(
    alloc: Global,
    problem: &Problem,
    elements: &Elements,
    demand: &Demand,
) -> Result<Option<usize>, AllocError> {
    let Demand::Defined { element, comb, .. } = demand else {
        return Ok(None);
    };
    if let DefBody::Nothing = comb {
        return Ok(None);
    }
    let spots = index_spots(alloc, problem, element)?;
    let places = all_known(alloc, spots.as_slice())?;
    Ok(elements.find(element.family, places.as_slice()))
}

/// The numbers of the elements that demands of now define by `:=`: those first behind which fewer others stand, one behind the other.
pub(crate) fn met_at_once(
    alloc: Global,
    problem: &Problem,
    elements: &Elements,
    parts: &Parts,
) -> Result<Vec<u32>, AllocError> {
    let levels = levels(alloc, parts)?;
    let mut wires: Vec<(usize, u32)> = Vec::new(alloc);
    for demand in problem.now.as_slice() {
        if let Some(place) = defined_at_once(alloc, problem, elements, demand)? {
            let level = levels.get(place).copied().unwrap_or(0);
            wires.push((level, u32::try_from(place).unwrap_or(u32::MAX)))?;
        }
    }
    wires.sort_by_key(|wire| *wire)?;
    wires.dedup();
    let mut met = Vec::new(alloc);
    for (_, place) in wires.as_slice() {
        met.push(*place)?;
    }
    Ok(met)
}

// The same element.
fn copied(alloc: Global, element: &Element) -> Result<Element, AllocError>
    ensures { IfOk result (λ copy. copy ≡ element.now) }
{
    Ok(Element {
        family: element.family,
        indexes: copy_classes(alloc, element.indexes.as_slice())?,
    })
}

// The elements at these places.
fn elements_at(alloc: Global, all: &[Element], places: &[u16]) -> Result<Vec<Element>, AllocError>
    requires { (p : ℕ) → Has places.now p → p < length all.now }
    ensures { IfOk result (λ elements. elements.items ≡ map (element_at all.now) places.now) }
{
    let mut elements = Vec::new(alloc);
    for place in places {
        elements.push(copied(alloc, &all[usize::from(*place)])?)?;
    }
    Ok(elements)
}

/// The elements of a problem that have these numbers, in this order.
pub(crate) fn elements_met(
    alloc: Global,
    problem: &Problem,
    met: &[u32],
) -> Result<Vec<Element>, AllocError>
    ensures { IfOk result (λ wires. OfCases problem.entry.now (λ c. (xs : List AbsElement) × (wires.items ≡ map written_element xs) × ((x : AbsElement) → Has xs x → Has c.elements x) × AreApartElements xs)) }
{
    let all = problem.elements.as_slice();
    let Ok(count) = u16::try_from(all.len()) else {
        return Ok(Vec::new(alloc));
    };
    let mut order = order_by(alloc, count, met)?;
    order.truncate(met.len());
    let wires = elements_at(alloc, all, order.as_slice())?;
    Ok(wires)
}

// The values of an element, and states with one of them.
ghost use Rattle.std.specs.Prelude.{◌≡◌, List, IfOk, OnOk, map, position, slice_get, slice_set};
ghost use Rattle.smv_elements.specs.Elements.{same_element};
ghost use Rattle.law_obligations.specs.Readings.{values_in};
ghost use Rattle.smv_problem.specs.Written.{written_place, kind_in};
ghost use Rattle.smv_problem.specs.WellFormed.{OfCases};
ghost use Rattle.smv_eval.specs.States.{state_cell};

use smv_cells::Cell;
use smv_core::flat::Element;
use smv_elements::order::is_same;
use smv_eval::states::cell_of;
use smv_eval::values::{list_for, value_at};
use smv_problem::{AbsValue, Problem};
use smv_targets::places_for;
use std::alloc::{AllocError, Global};

/// The place of an element among those of the problem, if it is one.
pub(crate) fn place_of(problem: &Problem, element: &Element) -> Option<usize>
    ensures { result ≡ position (same_element element.now) problem.entry.now.elements }
{
    problem
        .elements
        .as_slice()
        .iter()
        .position(|other| is_same(element, other))
}

/// The value at a place, if there is one.
pub(crate) fn value_in(values: &[AbsValue], place: usize) -> Option<AbsValue>
    ensures { result ≡ slice_get values.now place }
{
    match values.get(place) {
        Some(value) => Some(*value),
        None => None,
    }
}

/// The values of the elements of a family, in order.
pub(crate) fn values_for(
    alloc: Global,
    problem: &Problem,
    family: u16,
) -> Result<Vec<AbsValue>, AllocError>
    ensures { IfOk result (λ values. OfCases problem.entry.now (λ c. values.items ≡ map (written_place c.problem.world.classes (kind_in (slice_get c.problem.world.classes.families family))) (values_in c.problem.world (slice_get c.problem.world.classes.families family)))) }
{
    let list = list_for(problem, family);
    let places = places_for(alloc, problem, family)?;
    let spots = places.as_slice();
    let mut values = Vec::new(alloc);
    for spot in spots {
        values.push(value_at(problem, list, Some(*spot)))?;
    }
    Ok(values)
}

/// Puts another value of an element at its place among the values of a state, and its cell among theirs.
pub(crate) fn put(
    alloc: Global,
    problem: &Problem,
    element: &Element,
    place: usize,
    value: AbsValue,
    values: &mut Vec<AbsValue>,
    cells: &mut Vec<Cell<bool>>,
) -> Result<(), AllocError>
    ensures values { OnOk result (values.new.items ≡ slice_set values.old.items place value) }
    ensures cells { OnOk result (cells.new.items ≡ slice_set cells.old.items place (state_cell problem.entry.now element.now value)) }
{
    let cell = cell_of(alloc, problem, element, value)?;
    if place < values.len() {
        values[place] = value;
    }
    if place < cells.len() {
        cells[place] = cell;
    }
    Ok(())
}

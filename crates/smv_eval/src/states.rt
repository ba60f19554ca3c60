// Whether values are a state of a problem, and its cells.
ghost use Rattle.std.specs.Prelude.{◌≡◌, ◌↔◌, IsTrue, IfOk, slice_get};
ghost use Rattle.law_obligations.specs.May.{AbsState as Abstract};
ghost use Rattle.law_obligations.specs.Pictures.{IsAbsState};
ghost use Rattle.smv_conditions.specs.declared.stores.Plain.{Plain};
ghost use Rattle.smv_cells.specs.Seen.{IsSeen};
ghost use Rattle.smv_problem.specs.Written.{written_state};
ghost use Rattle.smv_problem.specs.WellFormed.{OfCases, OfStates};
ghost use Rattle.smv_eval.specs.States as spec;
ghost use Rattle.smv_eval.specs.States.{plainly, view_of};

use smv_cells::Cell;
use smv_conditions::offers::Offer;
use smv_core::Seq;
use smv_core::flat::{Element, Simple};
use smv_problem::{AbsState, AbsValue, Problem};
use smv_problem_spots::numbers::{classes, constants, rests};
use smv_typed_spots::{index_spots, spot_of_value};
use std::alloc::{AllocError, Global};

// The type of a family's values; one that is not there has no value.
fn type_of(problem: &Problem, family: u16) -> Simple
    ensures { result ≡ spec.type_of (slice_get problem.entry.now.families family) }
{
    match problem.families.as_slice().get(family as usize) {
        Some(family) => family.value,
        None => Simple::Range { low: 1, high: 0 },
    }
}

// Whether a type has a value.
fn is_value(problem: &Problem, over: Simple, value: AbsValue) -> bool
    ensures { result ≡ spec.is_value problem.entry.now over value }
{
    match (over, value) {
        (Simple::Range { low, high }, AbsValue::Number { value }) => {
            u16::from(low) <= value && value <= u16::from(high)
        }
        (Simple::Enum { list }, AbsValue::Constant { place }) => place < constants(problem, list),
        (Simple::Set { set }, AbsValue::Named { class }) => {
            u32::from(class) < classes(problem, set)
        }
        (Simple::Set { set }, AbsValue::Rest { gap }) => u32::from(gap) < rests(problem, set),
        _ => false,
    }
}

// Whether there is a value for each element, of its type.
fn are_values(problem: &Problem, elements: &[Element], values: &[AbsValue]) -> bool
    ensures { result ≡ spec.are_values problem.entry.now elements.now values.now }
{
    let Some((element, others)) = elements.split_first() else {
        return values.is_empty();
    };
    let Some((value, rest)) = values.split_first() else {
        return false;
    };
    is_value(problem, type_of(problem, element.family), *value) && are_values(problem, others, rest)
}

/// Whether this is an abstract state of a problem: a value for each element, of its type.
#[tactic(auto, using(crate::proofs::StateLaws::state_there))]
pub fn is_state(problem: &Problem, state: &AbsState) -> bool
    ensures { OfCases problem.entry.now (λ c. IsTrue result ↔ ((a : Abstract) × IsAbsState c.problem.world c.problem.kept a × (state.entry.now ≡ written_state c a))) }
{
    are_values(
        problem,
        problem.elements.as_slice(),
        state.values.as_slice(),
    )
}

/// The cell of an element that has this value.
pub fn cell_of(
    alloc: Global,
    problem: &Problem,
    element: &Element,
    value: AbsValue,
) -> Result<Cell<bool>, AllocError>
    ensures { IfOk result (λ cell. cell ≡ spec.state_cell problem.entry.now element.now value) }
{
    let indexes = index_spots(alloc, problem, element)?;
    let outcome = spot_of_value(type_of(problem, element.family), value);
    let mut values = Seq::new(alloc);
    values.push(Offer {
        outcome,
        when: true,
    })?;
    Ok(Cell {
        family: element.family,
        indexes,
        values,
    })
}

/// Those of elements that have these values.
pub fn cells_with(
    alloc: Global,
    problem: &Problem,
    elements: &[Element],
    values: &[AbsValue],
) -> Result<Vec<Cell<bool>>, AllocError>
    ensures { IfOk result (λ cells. cells.items ≡ spec.state_cells problem.entry.now elements.now values.now) }
{
    let mut cells = Vec::new(alloc);
    for (element, value) in elements.iter().zip(values) {
        let cell = cell_of(alloc, problem, element, *value)?;
        cells.push(cell)?;
    }
    Ok(cells)
}

/// The cells of an abstract state: one for each element of the problem, in order, that has the element's value alone.
#[tactic(auto, using(crate::proofs::StateLaws::cells_seen))]
pub fn cells_of(
    alloc: Global,
    problem: &Problem,
    state: &AbsState,
) -> Result<Vec<Cell<bool>>, AllocError>
    ensures { IfOk result (λ cells. OfStates problem.entry.now state.entry.now (λ c a. (s : Plain) → IsSeen plainly s problem.entry.now cells.items (view_of c a))) }
{
    let cells = cells_with(
        alloc,
        problem,
        problem.elements.as_slice(),
        state.values.as_slice(),
    )?;
    Ok(cells)
}

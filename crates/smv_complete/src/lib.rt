//! Elements that are worked out from the others, in states that are given as data.
//!
//! For traces of a case whose functions are over an arrangement in which some elements have no bits of their own meaning: what is read of the bits has any value at them, and `work_out` gives them, one
//! after the other, the first value with which all is met that defines them now (`worked_out` of `law_arrangements`). `choices` has the values of an element and puts one into a state, `demands` says whether what
//! defines an element is met.
#![tactic(auto)]

ghost use Rattle.std.specs.Prelude.{◌≡◌, List, [], ◌∷◌, None, OnOk, map};
ghost use Rattle.law_obligations.specs.Sets.{Has};
ghost use Rattle.law_obligations.specs.May.{AbsState as Abstract};
ghost use Rattle.law_obligations.specs.Cones.{AbsElement};
ghost use Rattle.law_arrangements.specs.Arrangements.{IsState, worked_out};
ghost use Rattle.smv_problem.specs.Written.{written_element, written_state};
ghost use Rattle.smv_problem.specs.WellFormed.{IsProblem, OfCases};
ghost use Rattle.smv_eval.specs.States.{state_cells};

mod choices;
mod demands;

use choices::{place_of, put, value_in, values_for};
use demands::are_met;
use smv_cells::Cell;
use smv_core::Seq;
use smv_core::flat::Element;
use smv_eval::states::cells_with;
use smv_problem::{AbsState, AbsValue, Problem};
use std::alloc::{AllocError, Global};

/// Works out these elements of a state, one after the other: each gets the first of its values with which its demands of now are met, and keeps its own where there is none.
pub fn work_out(
    alloc: Global,
    problem: &Problem,
    wires: &[Element],
    state: &mut AbsState,
) -> Result<(), AllocError>
    requires { IsProblem problem.now }
    ensures { OnOk result (OfCases problem.entry.now (λ c. (xs : List AbsElement) → ((x : AbsElement) → Has xs x → Has c.elements x) → wires.now ≡ map written_element xs → (a : Abstract) → IsState c a → state.old ≡ written_state c a → state.new ≡ written_state c (worked_out c c.problem.now xs None a))) }
{
    if wires.is_empty() {
        return Ok(());
    }
    let mut values = Vec::from_slice(alloc, state.values.as_slice())?;
    let mut cells = cells_with(
        alloc,
        problem,
        problem.elements.as_slice(),
        values.as_slice(),
    )?;
    for wire in wires {
        work_out_one(alloc, problem, wire, &mut values, &mut cells)?;
    }
    state.values = Seq::from_vec(values);
    Ok(())
}

// Works out one element, by the values of a state and their cells.
fn work_out_one(
    alloc: Global,
    problem: &Problem,
    element: &Element,
    values: &mut Vec<AbsValue>,
    cells: &mut Vec<Cell<bool>>,
) -> Result<(), AllocError>
    requires { cells.old.items ≡ state_cells problem.now problem.now.elements values.old.items }
    ensures cells { OnOk result (cells.new.items ≡ state_cells problem.entry.now problem.entry.now.elements values.new.items) }
    ensures values { OnOk result (OfCases problem.entry.now (λ c. (x : AbsElement) → Has c.elements x → element.now ≡ written_element x → (a : Abstract) → IsState c a → values.old.items ≡ (written_state c a).values → values.new.items ≡ (written_state c (worked_out c c.problem.now (x ∷ []) None a)).values)) }
{
    let Some(place) = place_of(problem, element) else {
        return Ok(());
    };
    let Some(own) = value_in(values.as_slice(), place) else {
        return Ok(());
    };
    let found = values_for(alloc, problem, element.family)?;
    let choices = found.as_slice();
    for choice in choices {
        put(alloc, problem, element, place, *choice, values, cells)?;
        if are_met(alloc, problem, cells.as_slice(), element)? {
            return Ok(());
        }
    }
    put(alloc, problem, element, place, own, values, cells)?;
    Ok(())
}

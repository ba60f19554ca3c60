// Whether states that are given as data are those of a violating path of a problem.
ghost use Rattle.std.specs.Prelude.{◌≡◌, ◌↔◌, List, IsTrue, IfOk, map, option_copied};
ghost use Rattle.law_obligations.specs.May.{AbsState as Abstract};
ghost use Rattle.law_obligations.specs.CasePaths.{IsViolatingPath};
ghost use Rattle.smv_problem.specs.Written.{written_state};
ghost use Rattle.smv_problem.specs.WellFormed.{IsProblem, OfCases};
ghost use Rattle.smv_eval.specs.Violations.{AreStates, Violates};

use crate::demands::{all_met, is_broken_by};
use crate::{cells_of, is_state};
use smv_cells::Cell;
use smv_problem::{AbsState, Problem};
use std::alloc::{AllocError, Global};

// Whether these states, after one that these cells read, are the rest of a violating path.
fn violates_after(
    alloc: Global,
    problem: &Problem,
    old: Option<&[Cell<bool>]>,
    states: &[AbsState],
) -> Result<bool, AllocError>
    ensures states { IfOk result (λ violates. IsTrue violates → AreStates problem.entry.now states.now) }
    ensures violates { IfOk result (λ violates. Violates problem.entry.now (option_copied old.entry) states.now violates) }
{
    let Some((state, others)) = states.split_first() else {
        return Ok(false);
    };
    if !is_state(problem, state) {
        return Ok(false);
    }
    let cells = cells_of(alloc, problem, state)?;
    if !all_met(
        alloc,
        problem,
        old,
        cells.as_slice(),
        problem.now.as_slice(),
    )? {
        return Ok(false);
    }
    if others.is_empty() {
        let broken = is_broken_by(alloc, problem, old, cells.as_slice())?;
        return Ok(broken);
    }
    if !all_met(
        alloc,
        problem,
        old,
        cells.as_slice(),
        problem.before.as_slice(),
    )? {
        return Ok(false);
    }
    let violates = violates_after(alloc, problem, Some(cells.as_slice()), others)?;
    Ok(violates)
}

/// Whether these states are those of a violating path; not where one of them is no state of the problem.
pub fn is_violating(
    alloc: Global,
    problem: &Problem,
    states: &[AbsState],
) -> Result<bool, AllocError>
    requires { IsProblem problem.now }
    ensures { IfOk result (λ violates. OfCases problem.entry.now (λ c. IsTrue violates ↔ ((path : List Abstract) × IsViolatingPath c.problem path × (states.now ≡ map (written_state c) path)))) }
{
    let violates = violates_after(alloc, problem, None, states)?;
    Ok(violates)
}

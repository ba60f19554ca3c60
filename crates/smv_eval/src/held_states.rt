// The same of states that are given as data.
ghost use Rattle.std.specs.Prelude.{◌≡◌, Option, IfOk, option_copied};
ghost use Rattle.law_obligations.specs.May.{AbsState as Abstract};
ghost use Rattle.law_obligations.specs.Obligations.{Demanded, is_met, obligation};
ghost use Rattle.smv_problem.specs.Written.{written_demand, written_before};
ghost use Rattle.smv_problem.specs.WellFormed.{IsProblem, IsBefore, IsFit, OfStates};
ghost use Rattle.smv_eval.specs.Held.{IsKept};

use crate::cells_of;
use crate::demands::{demand_met, is_broken_by};
use smv_problem::{AbsState, Demand, Problem};
use std::alloc::{AllocError, Global};

/// A demand is met in the may sense: that of an element that is kept, or of a claim.
pub fn met(
    alloc: Global,
    problem: &Problem,
    demand: &Demand,
    old: Option<&AbsState>,
    new: &AbsState,
) -> Result<bool, AllocError>
    requires { IsProblem problem.now }
    ensures { IfOk result (λ met. OfStates problem.entry.now new.entry.now (λ c a. (before : Option Abstract) (d : Demanded) → IsBefore c before → option_copied old.entry ≡ written_before c before → demand.entry.now ≡ written_demand c.problem.world.classes d → IsFit c d → IsKept c.problem d → met ≡ is_met c.problem before a d)) }
{
    let cells = cells_of(alloc, problem, new)?;
    let Some(old) = old else {
        let met = demand_met(alloc, problem, None, cells.as_slice(), demand)?;
        return Ok(met);
    };
    let before = cells_of(alloc, problem, old)?;
    let met = demand_met(
        alloc,
        problem,
        Some(before.as_slice()),
        cells.as_slice(),
        demand,
    )?;
    Ok(met)
}

/// The target is broken, and each guard may hold.
pub fn broken(
    alloc: Global,
    problem: &Problem,
    old: Option<&AbsState>,
    new: &AbsState,
) -> Result<bool, AllocError>
    requires { IsProblem problem.now }
    ensures { IfOk result (λ broken. OfStates problem.entry.now new.entry.now (λ c a. (before : Option Abstract) → IsBefore c before → option_copied old.entry ≡ written_before c before → broken ≡ (obligation c.problem).broken before a)) }
{
    let cells = cells_of(alloc, problem, new)?;
    let Some(old) = old else {
        let broken = is_broken_by(alloc, problem, None, cells.as_slice())?;
        return Ok(broken);
    };
    let before = cells_of(alloc, problem, old)?;
    let broken = is_broken_by(alloc, problem, Some(before.as_slice()), cells.as_slice())?;
    Ok(broken)
}

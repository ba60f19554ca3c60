// The same in states that are given as data.
ghost use Rattle.std.specs.Prelude.{◌≡◌, List, Option, IfOk, option_copied};
ghost use Rattle.smv_core.specs.declared.flat.Def.{Def};
ghost use Rattle.law_obligations.specs.Places.{Place};
ghost use Rattle.law_obligations.specs.May.{AbsState as Abstract};
ghost use Rattle.law_obligations.specs.Obligations.{defined};
ghost use Rattle.smv_problem.specs.Written.{written_demand, written_before};
ghost use Rattle.smv_problem.specs.WellFormed.{IsProblem, IsBefore, IsFit, OfStates};
ghost use Rattle.smv_eval.specs.Held.{IsKept};
ghost use Rattle.smv_eval.specs.Sure.{sure_values as sure_values_of};

use crate::cells_of;
use crate::must_values::sure_values;
use smv_core::Seq;
use smv_problem::{AbsState, AbsValue, Demand, Problem};
use std::alloc::{AllocError, Global};

/// The values that the definition of a kept element allows it for certain, in the order of its type: at time 0, where there is no state before, or at a later time. Of a demand that is no definition nothing is said.
pub fn must(
    alloc: Global,
    problem: &Problem,
    target: &Demand,
    old: Option<&AbsState>,
    new: &AbsState,
) -> Result<Seq<AbsValue>, AllocError>
    requires { IsProblem problem.now }
    ensures { IfOk result (λ values. OfStates problem.entry.now new.entry.now (λ c a. (before : Option Abstract) (def : Def) (indexes : List Place) → IsBefore c before → option_copied old.entry ≡ written_before c before → target.entry.now ≡ written_demand c.problem.world.classes (defined def indexes) →
        IsFit c (defined def indexes) → IsKept c.problem (defined def indexes) → values ≡ sure_values_of c.problem def indexes before a)) }
{
    let cells = cells_of(alloc, problem, new)?;
    let Some(old) = old else {
        let values = sure_values(alloc, problem, None, cells.as_slice(), target)?;
        return Ok(values);
    };
    let before = cells_of(alloc, problem, old)?;
    let values = sure_values(
        alloc,
        problem,
        Some(before.as_slice()),
        cells.as_slice(),
        target,
    )?;
    Ok(values)
}

//! The functions of a case, in a store of their own.

ghost use Rattle.std.specs.Prelude.{IfOk};
ghost use Rattle.smv_rings.specs.Lists.{IsRel};
ghost use Rattle.smv_problem.specs.WellFormed.{IsProblem};

use bdd_store::Store;
use smv_plan_reports::relations;
use smv_problem::Problem;
use smv_readings::state_bits;
use smv_rings::Rel;
use std::alloc::{AllocError, Global};

/// The functions of a case.
#[derive(Drop)]
pub struct Functions {
    pub store: Store,
    pub rel: Rel,
}

/// Those of a problem.
pub fn functions_of(alloc: Global, problem: &Problem) -> Result<Functions, AllocError>
    requires { IsProblem problem.now }
    ensures { IfOk result (λ functions. IsRel functions.store functions.rel) }
{
    let mut store = Store::new(alloc, 2 * u32::from(state_bits(problem)))?;
    let rel = relations(alloc, problem, &mut store)?;
    Ok(Functions { store, rel })
}

// What a target allows in states that are given as data.
ghost use Rattle.std.specs.Prelude.{◌≡◌, Option, IfOk, option_copied};
ghost use Rattle.std.specs.List.{list_any};
ghost use Rattle.law_obligations.specs.May.{AbsState as Abstract};
ghost use Rattle.smv_problem.specs.Written.{written_before};
ghost use Rattle.smv_problem.specs.WellFormed.{IsBefore, IsProblem, OfStates};
ghost use Rattle.smv_look_allowed.specs.Allowed as spec;
ghost use Rattle.smv_look_allowed.specs.Allowed.{is_rest, target_values as values_of};

use smv_core::Seq;
use smv_core::flat::Class;
use smv_eval::must;
use smv_problem::{AbsState, AbsValue, Demand, Problem};
use std::alloc::{AllocError, Global};

// Whether a class is a rest.
fn is_rest(class: Class) -> bool
    ensures { result ≡ spec.is_rest class }
{
    matches!(class, Class::Rest { .. })
}

// Whether one of these classes is a rest.
fn has_rest(indexes: &[Class]) -> bool
    ensures { result ≡ list_any is_rest indexes.now }
{
    indexes.iter().any(|class| is_rest(*class))
}

/// The values that the target of a problem allows for certain, in the order of its type: at time 0, where there is no state before, or at a later time. A claim allows none.
pub(crate) fn target_values(
    alloc: Global,
    problem: &Problem,
    old: Option<&AbsState>,
    new: &AbsState,
) -> Result<Seq<AbsValue>, AllocError>
    requires { IsProblem problem.now }
    ensures { IfOk result (λ values. OfStates problem.entry.now new.entry.now (λ c a. (before : Option Abstract) → IsBefore c before → option_copied old.entry ≡ written_before c before → values ≡ values_of c.problem c.problem.target before a)) }
{
    match &problem.target {
        Demand::Defined { element, .. } => {
            if has_rest(element.indexes.as_slice()) {
                return Ok(Seq::new(alloc));
            }
            let values = must(alloc, problem, &problem.target, old, new)?;
            Ok(values)
        }
        Demand::Holds { .. } => Ok(Seq::new(alloc)),
    }
}

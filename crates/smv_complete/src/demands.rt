// Whether what defines an element now is met.
ghost use Rattle.std.specs.Prelude.{◌≡◌, ◌||◌, not, List, None, IfOk, map};
ghost use Rattle.std.specs.List.{list_all};
ghost use Rattle.law_obligations.specs.Sets.{Has};
ghost use Rattle.law_obligations.specs.May.{AbsState as Abstract};
ghost use Rattle.law_obligations.specs.Obligations.{Demanded, is_met};
ghost use Rattle.law_obligations.specs.Cones.{AbsElement};
ghost use Rattle.law_reports.specs.CaseLists.{those_of};
ghost use Rattle.smv_problem.specs.Written.{written_element, written_demand};
ghost use Rattle.smv_problem.specs.WellFormed.{OfCases};
ghost use Rattle.smv_eval.specs.Held.{AreReadBy};
ghost use Rattle.smv_complete.specs.Defining.{is_of, AreOfNow};

use smv_cells::Cell;
use smv_core::flat::Element;
use smv_elements::order::is_same;
use smv_eval::demands::demand_met;
use smv_problem::{Demand, Problem};
use std::alloc::{AllocError, Global};

// The definition of this element.
fn defines(element: &Element, demand: &Demand) -> bool
    ensures { result ≡ is_of element.now demand.now }
{
    match demand {
        Demand::Defined { element: own, .. } => is_same(element, own),
        Demand::Holds { .. } => false,
    }
}

// Those of these demands that define an element are met in a state that these cells read.
fn all_met_for(
    alloc: Global,
    problem: &Problem,
    cells: &[Cell<bool>],
    element: &Element,
    demands: &[Demand],
) -> Result<bool, AllocError>
    ensures { IfOk result (λ met. OfCases problem.entry.now (λ c. (x : AbsElement) → Has c.elements x → element.now ≡ written_element x → (a : Abstract) → AreReadBy problem.entry.now None cells.now c.problem None a →
        (ds : List Demanded) → AreOfNow c ds → demands.now ≡ map (written_demand c.problem.world.classes) ds → met ≡ list_all (is_met c.problem None a) (those_of ds x))) }
{
    let Some((demand, others)) = demands.split_first() else {
        return Ok(true);
    };
    if defines(element, demand) {
        if !demand_met(alloc, problem, None, cells, demand)? {
            return Ok(false);
        }
    }
    let met = all_met_for(alloc, problem, cells, element, others)?;
    Ok(met)
}

/// The demands of now that define an element are met in a state that these cells read.
pub(crate) fn are_met(
    alloc: Global,
    problem: &Problem,
    cells: &[Cell<bool>],
    element: &Element,
) -> Result<bool, AllocError>
    ensures { IfOk result (λ met. OfCases problem.entry.now (λ c. (x : AbsElement) → Has c.elements x → element.now ≡ written_element x → (a : Abstract) → AreReadBy problem.entry.now None cells.now c.problem None a → met ≡ list_all (is_met c.problem None a) (those_of c.problem.now x))) }
{
    let met = all_met_for(alloc, problem, cells, element, problem.now.as_slice())?;
    Ok(met)
}

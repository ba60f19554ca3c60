// A problem is tried over an order in which bits stand near those that they meet, with elements worked out from others.
ghost use Rattle.std.specs.Prelude.{◌≡◌, ◌≤◌, ℕ, true, false, IfOk};
ghost use Rattle.law_obligations.specs.Readings.{state_bits as bits_of_case};
ghost use Rattle.law_reports.specs.Verdicts.{MayBeTold};
ghost use Rattle.law_arrangements.specs.Orders.{IsOrder};
ghost use Rattle.smv_problem.specs.WellFormed.{IsProblem, OfCases};
ghost use Rattle.smv_decide.specs.Tries.{AreCandidates, IsTried, is_out};

use crate::room::wired_within;
use crate::tries::{Tried, is_out_of_nodes, search_over};
use bdd_store::Store;
use smv_bit_order::{near_order, wires};
use smv_core::flat::Element;
use smv_problem::{Budgets, Problem};
use smv_readings::state_bits;
use smv_wires::Wired;
use std::alloc::{AllocError, Global};

// A try over an order of the bits, with a store of its own, in which those of these elements are worked out that can be.
fn try_wired(
    alloc: Global,
    problem: &Problem,
    order: &[u16],
    candidates: &[Element],
    budgets: Budgets,
) -> Result<Tried, AllocError>
    requires well_formed { IsProblem problem.now }
    requires order { OfCases problem.now (λ c. IsOrder (bits_of_case c) order.now) }
    requires candidates { OfCases problem.now (AreCandidates candidates.now) }
    requires steps { 1 ≤ budgets.steps }
    ensures { IfOk result (λ tried. OfCases problem.entry.now (λ c. (nodes : ℕ) → is_out tried ≡ false → IsTried (MayBeTold nodes budgets.steps c) c tried)) }
{
    let bits = state_bits(problem);
    let mut store = Store::new(alloc, 2 * u32::from(bits))?;
    let made = wired_within(alloc, problem, order, candidates, &mut store, budgets.nodes)?;
    let Some(Wired { rel, wires }) = made else {
        return Ok(Tried::NoRoom);
    };
    let wires = wires.as_slice();
    let tried = search_over(alloc, problem, order, wires, &rel, &mut store, budgets)?;
    Ok(tried)
}

/// A try over the near order, where it is another one than the declared or has elements that may be worked out, unless what was found before is not that the nodes were passed.
pub(crate) fn try_near(
    alloc: Global,
    problem: &Problem,
    declared: &[u16],
    budgets: Budgets,
    before: Tried,
) -> Result<Tried, AllocError>
    requires well_formed { IsProblem problem.now }
    requires steps { 1 ≤ budgets.steps }
    requires before { OfCases problem.now (λ c. (nodes : ℕ) → is_out before ≡ false → IsTried (MayBeTold nodes budgets.steps c) c before) }
    ensures tried { IfOk result (λ tried. OfCases problem.entry.now (λ c. (nodes : ℕ) → is_out tried ≡ false → IsTried (MayBeTold nodes budgets.steps c) c tried)) }
    ensures counted { IfOk result (λ tried. is_out tried ≡ true → tried ≡ before) }
{
    if !is_out_of_nodes(&before) {
        return Ok(before);
    }
    let near = near_order(alloc, problem)?;
    let candidates = wires(alloc, problem)?;
    if candidates.is_empty() && near.as_slice() == declared {
        return Ok(before);
    }
    let near = near.as_slice();
    let tried = try_wired(alloc, problem, near, candidates.as_slice(), budgets)?;
    if is_out_of_nodes(&tried) {
        return Ok(before);
    }
    Ok(tried)
}

// A set over an order of the bits.
ghost use Rattle.std.specs.Prelude.{◌≡◌, ◌*◌, ◌↔◌, Bool, true, IfOk, IsTrue};
ghost use Rattle.smv_rings.specs.Paths.{IsInductive};
ghost use Rattle.law_obligations.specs.Readings.{state_bits as bits_of_case};
ghost use Rattle.law_reports.specs.CaseLists.{case_lists};
ghost use Rattle.law_arrangements.specs.Orders.{IsOrder};
ghost use Rattle.smv_problem.specs.WellFormed.{IsProblem, OfCases};
ghost use Rattle.smv_proof.specs.Documents.{is_set};
ghost use Rattle.smv_proof.specs.Meanings.{is_below, meaning};

use crate::bits::bits_at;
use bdd_store::Store;
use law_moved_sets::orders_keep_induction;
use smv_encode::relations_over;
use smv_inductive::inductive;
use smv_moved_sets::rebuild_by;
use smv_orders::places_in;
use smv_problem::Problem;
use smv_proof::KeptSet;
use smv_readings::state_bits;
use std::alloc::{AllocError, Global};

/// Whether a set is over the state bits of a problem.
pub fn is_over(problem: &Problem, set: &KeptSet) -> bool
    requires { IsProblem problem.now }
    ensures { OfCases problem.entry.now (λ c. result ≡ is_below (2 * bits_of_case c) set.now) }
{
    let vars = 2 * u32::from(state_bits(problem));
    are_below(vars, set)
}

// Whether each variable of a set is below a number.
fn are_below(vars: u32, set: &KeptSet) -> bool
    ensures { result ≡ is_below vars set.now }
{
    for node in set.nodes.as_slice() {
        if u32::from(node.var) >= vars {
            return false;
        }
    }
    true
}

/// Whether a set meets the four conditions of induction, tested over an order of the bits in a store that holds at most so many nodes; want of memory where these do not do.
pub(crate) fn meets_over(
    alloc: Global,
    problem: &Problem,
    set: &KeptSet,
    order: &[u16],
    most: u32,
) -> Result<bool, AllocError>
    requires problem { IsProblem problem.now }
    requires set { is_set set.now ≡ true }
    requires below { OfCases problem.now (λ c. is_below (2 * bits_of_case c) set.now ≡ true) }
    requires order { OfCases problem.now (λ c. IsOrder (bits_of_case c) order.now) }
    ensures { IfOk result (λ x. OfCases problem.entry.now (λ c. IsTrue x ↔ IsInductive (case_lists c) (meaning set.now))) }
{
    orders_keep_induction();
    let bits = state_bits(problem);
    let mut store = Store::new(alloc, 2 * u32::from(bits))?;
    store.hold_at_most(most);
    let rel = relations_over(alloc, problem, order, &mut store)?;
    let places = places_in(alloc, order)?;
    let functions = bits_at(alloc, &mut store, places.as_slice())?;
    let states = rebuild_by(alloc, &mut store, functions.as_slice(), set)?;
    let holds = inductive(alloc, &rel, &mut store, states)?;
    Ok(holds)
}

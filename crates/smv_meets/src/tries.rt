// A set is tested over more than one order of the bits.
ghost use Rattle.std.specs.Prelude.{◌≡◌, ◌*◌, ◌↔◌, true, IfOk, IsTrue};
ghost use Rattle.smv_rings.specs.Paths.{IsInductive};
ghost use Rattle.law_obligations.specs.Readings.{state_bits as bits_of_case};
ghost use Rattle.law_reports.specs.CaseLists.{case_lists};
ghost use Rattle.law_arrangements.specs.Orders.{IsOrder};
ghost use Rattle.smv_problem.specs.WellFormed.{IsProblem, OfCases};
ghost use Rattle.smv_proof.specs.Documents.{is_set};
ghost use Rattle.smv_proof.specs.Meanings.{is_below, meaning};

use crate::over::meets_over;
use smv_bit_order::near_order;
use smv_orders::declared_order;
use smv_problem::Problem;
use smv_proof::KeptSet;
use std::alloc::{AllocError, Global};

/// The first tests are made in stores of so many nodes.
const FEW: u32 = 131_072;

/// And those after them in stores of so many times as many.
const TIMES: u32 = 8;

/// So many times.
const TRIES: u32 = 3;

/// Whether a set meets the four conditions of induction: over the declared order or over the near one, whichever comes to an end in a store of few nodes; and else over the declared order, whatever that takes.
pub fn meets(alloc: Global, problem: &Problem, set: &KeptSet) -> Result<bool, AllocError>
    requires problem { IsProblem problem.now }
    requires set { is_set set.now ≡ true }
    requires below { OfCases problem.now (λ c. is_below (2 * bits_of_case c) set.now ≡ true) }
    ensures { IfOk result (λ x. OfCases problem.entry.now (λ c. IsTrue x ↔ IsInductive (case_lists c) (meaning set.now))) }
{
    let declared = declared_order(alloc, problem)?;
    let near = near_order(alloc, problem)?;
    let is_other = near.as_slice() != declared.as_slice();
    let mut most = FEW;
    for _ in 0..TRIES {
        if let Ok(holds) = meets_over(alloc, problem, set, declared.as_slice(), most) {
            return Ok(holds);
        }
        if is_other {
            if let Ok(holds) = meets_over(alloc, problem, set, near.as_slice(), most) {
                return Ok(holds);
            }
        }
        most = most.saturating_mul(TIMES);
    }
    let holds = meets_over(alloc, problem, set, declared.as_slice(), u32::MAX)?;
    Ok(holds)
}

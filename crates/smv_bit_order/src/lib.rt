//! An order of the bits of a problem in which bits stand near those that they meet.
//!
//! For whoever encodes a case over an order of its own. `near_order` is all of it, and promises that each bit has one place: whatever order is chosen, a case is decided alike
//! (`law_arrangements`), so what chooses it needs no trust, and a change here proves nothing anew but what calls it.
//!
//! How it is chosen: `elements` has the elements by their places, `reader`, `expressions` and `definitions` say for each what it reads, in parts (what decides it, what is compared with one another, and
//! what it is given), and `walk` goes depth first from the target through the parts. What is compared is gone through together, numbers bit by bit from the lowest; what decides stands before what is
//! decided; a wire, which is worked out at once, stands behind what it is given (`levels`), and any other element before it. `order` makes a permutation of what the walk has met.
//!
//! `wires` has the elements themselves that are worked out at once, in an order in which each may be worked out of those before it; that it may is for whoever takes them to find out.
#![tactic(auto)]

ghost use Rattle.std.specs.Prelude.{◌≡◌, List, map, IfOk};
ghost use Rattle.law_obligations.specs.Sets.{Has};
ghost use Rattle.law_obligations.specs.Cones.{AbsElement};
ghost use Rattle.law_obligations.specs.Readings.{state_bits as bits_of_case};
ghost use Rattle.smv_problem.specs.Written.{written_element};
ghost use Rattle.smv_problem.specs.WellFormed.{IsProblem, OfCases, AreApartElements};
ghost use Rattle.law_arrangements.specs.Orders.{IsOrder};

mod candidates;
mod definitions;
mod elements;
mod expressions;
mod levels;
mod order;
mod parts;
mod reader;
mod walk;

use smv_core::flat::Element;
use smv_problem::Problem;
use smv_readings::state_bits;
use std::alloc::{AllocError, Global};

/// An order of the bits of a problem, in which those stand near one another that are read together.
pub fn near_order(alloc: Global, problem: &Problem) -> Result<Vec<u16>, AllocError>
    requires { IsProblem problem.now }
    ensures { IfOk result (λ order. OfCases problem.entry.now (λ c. IsOrder (bits_of_case c) order.items)) }
{
    let bits = state_bits(problem);
    let elements = elements::elements_of(alloc, problem)?;
    let parts = parts::parts_of(alloc, problem, &elements)?;
    let met = walk::met_bits(alloc, &elements, &parts, bits as usize)?;
    order::order_by(alloc, bits, met.as_slice())
}

/// Elements of a problem that are defined by what holds at once, each behind those of them that it reads, unless they read each other.
pub fn wires(alloc: Global, problem: &Problem) -> Result<Vec<Element>, AllocError>
    ensures { IfOk result (λ wires. OfCases problem.entry.now (λ c. (xs : List AbsElement) × (wires.items ≡ map written_element xs) × ((x : AbsElement) → Has xs x → Has c.elements x) × AreApartElements xs)) }
{
    let elements = elements::elements_of(alloc, problem)?;
    let parts = parts::parts_of(alloc, problem, &elements)?;
    let met = candidates::met_at_once(alloc, problem, &elements, &parts)?;
    candidates::elements_met(alloc, problem, met.as_slice())
}

//! Orders of the state bits of a problem: that of the declarations, the places of the bits in one, and a state's bits from those at its places.
//!
//! For the encoder, which reads each bit at the variables of its place, and for traces, which go back from places to bits. What an order is says `IsOrder` of `law_arrangements`, and
//! `specs/Places` which places the bits have in one.
#![tactic(auto)]

ghost use Rattle.std.specs.Prelude.{◌≡◌, ◌<◌, ◌≤◌, ℕ, List, length, IfOk};
ghost use Rattle.smv_core.specs.Values.{numbers_from};
ghost use Rattle.bdd_ops.specs.Functions.{bit_at};
ghost use Rattle.law_obligations.specs.Sets.{Has};
ghost use Rattle.law_obligations.specs.Readings.{state_bits as bits_of_case};
ghost use Rattle.law_arrangements.specs.Arrangements.{spread};
ghost use Rattle.law_arrangements.specs.Orders.{IsOrder};
ghost use Rattle.smv_problem.specs.WellFormed.{IsProblem, OfCases};
ghost use Rattle.smv_orders.specs.Places.{ArePlaces};

use smv_problem::Problem;
use smv_readings::state_bits;
use std::alloc::{AllocError, Global};

/// The bits of a problem in the order of the declarations.
pub fn declared_order(alloc: Global, problem: &Problem) -> Result<Vec<u16>, AllocError>
    requires { IsProblem problem.now }
    ensures { IfOk result (λ order. OfCases problem.entry.now (λ c. order.items ≡ numbers_from 0 (bits_of_case c))) }
{
    let bits = state_bits(problem);
    let order = first_numbers(alloc, bits)?;
    Ok(order)
}

/// So many numbers from 0 on.
pub fn first_numbers(alloc: Global, count: u16) -> Result<Vec<u16>, AllocError>
    ensures { IfOk result (λ numbers. numbers.items ≡ numbers_from 0 count) }
{
    let mut numbers = Vec::new(alloc);
    for number in 0..count {
        numbers.push(number)?;
    }
    Ok(numbers)
}

/// The place of each bit in an order, bit by bit.
pub fn places_in(alloc: Global, order: &[u16]) -> Result<Vec<u16>, AllocError>
    requires few { length order.now ≤ 65535 }
    requires order { IsOrder (length order.now) order.now }
    ensures count { IfOk result (λ places. length places.items ≡ length order.now) }
    ensures are { IfOk result (λ places. ArePlaces order.now 0 places.items) }
    ensures within { IfOk result (λ places. (p : ℕ) → Has places.items p → p < length order.now) }
{
    let mut places = vec![in alloc; 0; order.len()]?;
    for place in 0..order.len() {
        places[usize::from(order[place])] = place as u16;
    }
    Ok(places)
}

/// The bits of a state of which these are the values at the places of its bits.
pub fn bits_from_places(
    alloc: Global,
    places: &[u16],
    values: &[bool],
) -> Result<Vec<bool>, AllocError>
    requires within { (p : ℕ) → Has places.now p → p < length values.now }
    ensures count { IfOk result (λ bits. length bits.items ≡ length places.now) }
    ensures bits { IfOk result (λ bits. (order : List ℕ) → ArePlaces order 0 places.now → (b : ℕ) → b < length places.now → bit_at bits.items b ≡ spread order (bit_at values.now) b) }
{
    let mut bits = Vec::new(alloc);
    for place in places {
        bits.push(values[usize::from(*place)])?;
    }
    Ok(bits)
}

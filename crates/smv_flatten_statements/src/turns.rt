// The turns of a `for`.
ghost use Rattle.std.specs.Prelude.{◌≡◌, ◌≤◌, IsTrue, IfOk};
ghost use Rattle.smv_core.specs.Walk.{steps_of};
ghost use Rattle.smv_flatten_statements.specs.Turns as turns_spec;

use std::alloc::{AllocError, Global};

/// The numbers that a `for` goes through. A step of 0 stays at the first number, once for each number up to `to`.
#[tactic(auto, using(crate::proofs::TurnLaws::starting))]
pub fn turns(
    alloc: Global,
    from: u16,
    to: u16,
    closed: bool,
    step: u16,
) -> Result<Vec<u16>, AllocError>
    ensures { IfOk result (λ numbers. numbers.items ≡ steps_of from to closed step) }
{
    let mut numbers = Vec::new(alloc);
    let mut n = u32::from(from);
    let mut left = u32::from(to) + 1;
    while left > 0 && is_turn(n, to, closed) {
        numbers.push(n as u16)?;
        n += u32::from(step);
        left -= 1;
    }
    Ok(numbers)
}

// Whether a number is before the end of a `for`.
fn is_turn(n: u32, to: u16, closed: bool) -> bool
    ensures is { result ≡ turns_spec.is_turn to closed n }
    ensures within { IsTrue result → n ≤ to }
{
    let to = u32::from(to);
    n < to || (closed && n == to)
}

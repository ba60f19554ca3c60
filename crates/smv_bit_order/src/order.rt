// An order of all bits by the order in which some are met.
ghost use Rattle.std.specs.Prelude.{IfOk};
ghost use Rattle.law_arrangements.specs.Orders.{IsOrder};

use smv_orders::first_numbers;
use std::alloc::{AllocError, Global};

// When each bit is met for the first time; a bit that is not met comes last.
fn ranks(alloc: Global, bits: u16, met: &[u32]) -> Result<Vec<usize>, AllocError> {
    let mut ranks = vec![in alloc; usize::MAX; usize::from(bits)]?;
    for (rank, bit) in met.iter().enumerate() {
        if let Some(first) = ranks.get_mut(*bit as usize) {
            *first = rank.min(*first);
        }
    }
    Ok(ranks)
}

/// So many bits, those that are met in this order first.
pub(crate) fn order_by(alloc: Global, bits: u16, met: &[u32]) -> Result<Vec<u16>, AllocError>
    ensures { IfOk result (λ order. IsOrder bits order.items) }
{
    let ranks = ranks(alloc, bits, met)?;
    let mut order = first_numbers(alloc, bits)?;
    order.sort_by_key(|bit| ranks.get(*bit as usize).copied().unwrap_or(usize::MAX))?;
    Ok(order)
}

// Places in flat order.
ghost use Rattle.std.specs.Prelude.{◌≡◌, ◌+◌, IfOk};

use std::alloc::AllocError;

/// The place behind so many others.
pub(crate) fn place_after(place: u32, others: u32) -> Result<u32, AllocError>
    ensures { IfOk result (λ after. after ≡ place + others) }
{
    match place.checked_add(others) {
        Some(after) => Ok(after),
        None => Err(AllocError),
    }
}

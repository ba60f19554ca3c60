// Assignments in flat order.
ghost use Rattle.std.specs.Prelude.{◌≡◌, map, IfOk};
ghost use Rattle.law_designs.specs.Loops.{in_order};
ghost use Rattle.smv_loops.specs.Held.{reading_of};

use crate::reading::Held;
use std::alloc::AllocError;

/// These assignments in flat order.
pub(crate) fn in_flat_order<'a>(held: Vec<Held<'a>>) -> Result<Vec<Held<'a>>, AllocError>
    ensures { IfOk result (λ sorted. map reading_of sorted.items ≡ in_order (map reading_of held.entry.items)) }
{
    let mut sorted = held;
    sorted.reverse();
    sorted.sort_by_key(|a| a.place)?;
    Ok(sorted)
}

// The bits of the current state, each read at its place in an order.
ghost use Rattle.std.specs.Prelude.{◌≡◌, ℕ, ◌*◌, ◌<◌, Bool, length, get_or, IfOk};
ghost use Rattle.bdd_store.specs.Diagram.{AreLive, Keeps, table, ref_at};
ghost use Rattle.law_obligations.specs.Sets.{Has};
ghost use Rattle.smv_meets.specs.Bits.{AreBitsAt};

use bdd_store::{Ref, Store};
use std::alloc::{AllocError, Global};

/// For each bit, of these places, the function that is its value in the current state.
pub(crate) fn bits_at(
    alloc: Global,
    store: &mut Store,
    places: &[u16],
) -> Result<Vec<Ref>, AllocError>
    requires { (p : ℕ) → Has places.now p → 2 * p < store.old.vars }
    ensures bits { IfOk result (λ bits. AreBitsAt store.new places.now bits.items) }
    ensures keeps { Keeps store.old store.new }
{
    let never = store.constant(false);
    let always = store.constant(true);
    let mut bits = Vec::new(alloc);
    for place in places {
        let bit = store.node(2 * u32::from(*place), never, always)?;
        bits.push(bit)?;
    }
    Ok(bits)
}

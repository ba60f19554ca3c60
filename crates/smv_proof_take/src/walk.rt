// A walk over a diagram, branches first.
ghost use Rattle.std.specs.Prelude.{◌≡◌, ◌+◌, ◌<◌, ◌≤◌, length, IfOk, OnOk};
ghost use Rattle.std.specs.HashMap.{get};
ghost use Rattle.bdd_store.specs.Diagram.{IsLive};
ghost use Rattle.bdd_ops.specs.Memo.{same_one};
ghost use Rattle.smv_proof.specs.Documents.{last_var, most};
ghost use Rattle.smv_proof_take.specs.Numbering.{AreKnown, HasNumbers, IsNumbered};

use crate::lines::join;
use bdd_store::{Ref, Store};
use smv_proof::Node;
use std::alloc::AllocError;
use std::collections::HashMap;

/// The number of a function, whose lines are put behind those that stand. A function that has a number is not walked again.
pub(crate) fn number_of(
    store: &Store,
    nodes: &mut Vec<Node>,
    numbers: &mut HashMap<Node, u32>,
    roots: &mut HashMap<Ref, u32>,
    f: Ref,
) -> Result<u32, AllocError>
    requires live { IsLive store.now f }
    requires vars { store.now.vars ≤ last_var + 2 }
    requires numbers { HasNumbers numbers.old nodes.old.items }
    requires known { AreKnown store.now roots.old nodes.old.items }
    requires few { length nodes.old.items < most }
    ensures numbered { IfOk result (λ number. IsNumbered store.now f nodes.old.items number nodes.new.items) }
    ensures numbers { OnOk result (HasNumbers numbers.new nodes.new.items) }
    ensures known { OnOk result (AreKnown store.now roots.new nodes.new.items) }
    ensures few { OnOk result (length nodes.new.items < most) }
{
    if let Some(value) = store.is_constant(f) {
        return Ok(u32::from(value));
    }
    if let Some(number) = root_in(roots, f) {
        return Ok(number);
    }
    let low = number_of(store, nodes, numbers, roots, store.low(f))?;
    let high = number_of(store, nodes, numbers, roots, store.high(f))?;
    let node = Node {
        var: store.var(f) as u16,
        low,
        high,
    };
    let number = join(nodes, numbers, node)?;
    roots.insert(f, number)?;
    Ok(number)
}

// The number of a function that was walked.
fn root_in(roots: &HashMap<Ref, u32>, f: Ref) -> Option<u32>
    ensures { result ≡ get same_one roots.now f }
{
    roots.get(&f).copied()
}

//! The nodes below a function: seen once each, and counted.

ghost use Rattle.std.specs.Prelude.{◌≡◌, ℕ, ◌<◌, List, [], ◌++◌, length, vec_len, vec_capacity, ◌≤◌, count_by};
ghost use Rattle.std.specs.List.{flat_map};
ghost use Rattle.bdd_store.specs.Graph.{Reduced, Live, below};
ghost use Rattle.bdd_store.specs.Seen.{IsClosed, SeenIs, places_of};
ghost use Rattle.bdd_store.specs.Diagram.{ref_at};

use crate::Ref;
use crate::chains::Node;

/// Sees the nodes below a place, and gives the number of nodes that were seen so far.
pub fn visit(nodes: &[Node], seen: &mut Vec<bool>, vars: u32, r: u32, count: usize) -> usize
    requires reduced { Reduced vars nodes.now }
    requires live { Live vars nodes.now r }
    requires room { vec_len seen.old ≡ length nodes.now }
    requires counted { count ≡ count_by (λ s. s) seen.old.items }
    ensures room { vec_len seen.new ≡ length nodes.now }
    ensures counted { result ≡ count_by (λ s. s) seen.new.items }
    ensures seen { (l : List ℕ) → IsClosed vars nodes.now l → SeenIs seen.old.items l → SeenIs seen.new.items (below nodes.now vars 0 r ++ l) }
    ensures capacity { vec_capacity seen.new ≡ vec_capacity seen.old }
{
    let node = &nodes[r as usize];
    if node.var >= vars || seen[r as usize] {
        return count;
    }
    let after_low = visit(nodes, seen, vars, node.low, count);
    let after_both = visit(nodes, seen, vars, node.high, after_low);
    if seen[r as usize] {
        return after_both;
    }
    seen[r as usize] = true;
    after_both + 1
}

/// Sees the nodes below the roots, and counts them.
pub fn count_below(nodes: &[Node], seen: &mut Vec<bool>, vars: u32, roots: &[Ref]) -> usize
    requires reduced { Reduced vars nodes.now }
    requires few { length nodes.now ≤ 0x1_0000_0000 }
    requires live { (i : ℕ) → i < length roots.now → Live vars nodes.now (ref_at roots.now i).place }
    requires room { vec_len seen.old ≡ length nodes.now }
    requires clear { SeenIs seen.old.items [] }
    ensures room { vec_len seen.new ≡ length nodes.now }
    ensures counted { result ≡ count_by (λ s. s) seen.new.items }
    ensures seen { SeenIs seen.new.items (flat_map (below nodes.now vars 0) (places_of roots.now)) }
    ensures capacity { vec_capacity seen.new ≡ vec_capacity seen.old }
{
    let mut count = 0;
    for root in roots {
        count = visit(nodes, seen, vars, root.place, count);
    }
    count
}

/// Takes all flags away.
pub fn clear(seen: &mut Vec<bool>)
    ensures clear { SeenIs seen.new.items [] }
    ensures room { vec_len seen.new ≡ vec_len seen.old }
    ensures capacity { vec_capacity seen.new ≡ vec_capacity seen.old }
{
    for flag in seen.iter_mut() {
        *flag = false;
    }
}

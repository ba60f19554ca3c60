//! The unique table: chains of nodes with one hash, and the list of the places that were given back.

ghost use Rattle.std.specs.Prelude.{◌≡◌, ℕ, Bool, false, [], ◌∷◌, ◌++◌, if◌then◌else◌, is_ok, ◌+◌, ◌<◌, ◌≤◌, IfOk, OnErr, length, slice_index, vec_len, vec_capacity, min, count_by};
ghost use Rattle.bdd_store.specs.Graph.{next_at};
ghost use Rattle.bdd_store.specs.Chains.{bucket_of, home, start, InChain, IsFalling, Matches, AllOf, AllBut, IsPower, Chained, SameGraph, Puts, GivesBack, node_count};
ghost use Rattle.bdd_store.specs.Seen.{flag};

use std::alloc::AllocError;

#[derive(Clone, Copy)]
pub struct Node {
    pub var: u32,
    pub low: u32,
    pub high: u32,
    pub next: u32,
}

/// The chain of a node, among `len` chains.
#[inline(always)]
pub fn bucket_of(var: u32, low: u32, high: u32, len: usize) -> usize
    requires { 0 < len }
    ensures bucket { result ≡ bucket_of var low high len }
    ensures within { result < len }
{
    let mixed = low as usize + 37 * (high as usize) + 0x1E37_79B1 * (var as usize);
    mixed & (len - 1)
}

/// The place in the chain from `start` that has this node, or 0.
#[inline(always)]
pub fn find(nodes: &[Node], start: u32, var: u32, low: u32, high: u32) -> u32
    requires falling { IsFalling nodes.now start }
    requires ends { next_at nodes.now 0 ≡ 0 }
    ensures found { 0 < result → (result < length nodes.now) × Matches nodes.now result var low high }
    ensures absent { result ≡ 0 → (r : ℕ) → 0 < r → InChain nodes.now start r → Matches nodes.now r var low high → ⊥ }
{
    let mut at = start;
    while at != 0 {
        let node = &nodes[at as usize];
        if node.low == low && node.high == high && node.var == var {
            return at;
        }
        at = node.next;
    }
    0
}

// The last place above `place` in the chain from `start`.
fn last_above(nodes: &[Node], start: u32, place: u32) -> u32
    requires above { place < start }
    requires falling { IsFalling nodes.now start }
    requires apart { InChain nodes.now start place → ⊥ }
    ensures in_chain { InChain nodes.now start result }
    ensures within { result < length nodes.now }
    ensures above { place < result }
    ensures next { next_at nodes.now result < place }
{
    let mut at = start;
    while nodes[at as usize].next > place {
        at = nodes[at as usize].next;
    }
    at
}

// Puts the node at `place`, which stands in no chain, into the chain `bucket`, where it keeps the order.
fn link(nodes: &mut Vec<Node>, heads: &mut Vec<u32>, bucket: usize, place: u32)
    requires two { 2 ≤ place }
    requires within { place < vec_len nodes.old }
    requires bucket_in { bucket < vec_len heads.old }
    requires falling { IsFalling nodes.old.items (slice_index heads.old.items bucket) }
    requires apart { InChain nodes.old.items (slice_index heads.old.items bucket) place → ⊥ }
    ensures chained { (n free : ℕ) → bucket ≡ home n nodes.old.items (length heads.old.items) place → Chained n nodes.old.items heads.old.items free (AllBut nodes.old.items place) → Chained n nodes.new.items heads.new.items free (AllOf nodes.new.items) }
    ensures same { SameGraph nodes.old.items nodes.new.items }
    ensures room { vec_capacity nodes.new ≡ vec_capacity nodes.old }
    ensures len { vec_len nodes.new ≡ vec_len nodes.old }
{
    let head = heads[bucket];
    let node = nodes[place as usize];
    if head < place {
        nodes[place as usize] = Node { next: head, ..node };
        heads[bucket] = place;
    } else {
        let before = last_above(nodes, head, place);
        let above = nodes[before as usize];
        nodes[place as usize] = Node {
            next: above.next,
            ..node
        };
        nodes[before as usize] = Node {
            next: place,
            ..above
        };
    }
}

/// Links all places anew, each into its home, and gives the first place of the free list.
pub fn link_all(nodes: &mut Vec<Node>, heads: &mut Vec<u32>, vars: u32) -> u32
    requires few { vec_len nodes.old ≤ 0x1_0000_0000 }
    requires ends { next_at nodes.old.items 0 ≡ 0 }
    requires some { 2 ≤ vec_len nodes.old }
    requires power { IsPower (length heads.old.items) }
    ensures same { SameGraph nodes.old.items nodes.new.items }
    ensures chained { Chained vars nodes.new.items heads.new.items result (AllOf nodes.new.items) }
    ensures room { vec_capacity nodes.new ≡ vec_capacity nodes.old }
    ensures len { vec_len nodes.new ≡ vec_len nodes.old }
{
    for head in heads.iter_mut() {
        *head = 0;
    }
    let mut free = 0;
    for place in 2..nodes.len() {
        let node = nodes[place];
        if node.var < vars {
            let bucket = bucket_of(node.var, node.low, node.high, heads.len());
            nodes[place] = Node {
                next: heads[bucket],
                ..node
            };
            heads[bucket] = place as u32;
        } else {
            nodes[place] = Node { next: free, ..node };
            free = place as u32;
        }
    }
    free
}

/// Makes twice as many chains, where there is memory for that, and gives the first place of the free list.
#[inline(never)]
pub fn grow(nodes: &mut Vec<Node>, heads: &mut Vec<u32>, free: u32, vars: u32) -> u32
    requires chained { Chained vars nodes.old.items heads.old.items free (AllOf nodes.old.items) }
    requires some { 2 ≤ vec_len nodes.old }
    requires few { vec_len nodes.old ≤ 0x1_0000_0000 }
    ensures same { SameGraph nodes.old.items nodes.new.items }
    ensures chained { Chained vars nodes.new.items heads.new.items result (AllOf nodes.new.items) }
    ensures room { vec_capacity nodes.new ≡ vec_capacity nodes.old }
    ensures len { vec_len nodes.new ≡ vec_len nodes.old }
{
    let len = heads.len();
    if len < 0x8000_0000 && heads.resize(2 * len, 0).is_ok() {
        return link_all(nodes, heads, vars);
    }
    free
}

// Puts a node at the end, where there is room for its mark too.
fn append(nodes: &mut Vec<Node>, marks: &mut Vec<bool>, node: Node) -> Result<u32, AllocError>
    requires flags { vec_len marks.old ≡ vec_len nodes.old }
    ensures place { IfOk result (λ place. place ≡ vec_len nodes.old) }
    ensures nodes { nodes.new.items ≡ (if is_ok result then nodes.old.items ++ node ∷ [] else nodes.old.items) }
    ensures marks { marks.new.items ≡ (if is_ok result then marks.old.items ++ false ∷ [] else marks.old.items) }
    ensures node_room { vec_capacity nodes.old ≤ vec_capacity nodes.new }
    ensures mark_room { vec_capacity marks.old ≤ vec_capacity marks.new }
    ensures full { OnErr result (min (min (vec_capacity nodes.old) (vec_capacity marks.old)) 0x1_0000_0000 ≤ vec_len nodes.old) }
{
    let place = nodes.len();
    if place >= 0x1_0000_0000 {
        return Err(AllocError);
    }
    marks.reserve(1)?;
    nodes.push(node)?;
    marks.push(false)?;
    Ok(place as u32)
}

/// Puts a node that stands nowhere: at a place that was given back, or else at the end.
pub fn add(
    nodes: &mut Vec<Node>,
    marks: &mut Vec<bool>,
    heads: &mut Vec<u32>,
    free: &mut u32,
    vars: u32,
    bucket: usize,
    node: Node,
) -> Result<u32, AllocError>
    requires chained { Chained vars nodes.old.items heads.old.items free.old (AllOf nodes.old.items) }
    requires some { 2 ≤ vec_len nodes.old }
    requires few { vec_len nodes.old ≤ 0x1_0000_0000 }
    requires flags { vec_len marks.old ≡ vec_len nodes.old }
    requires var_in { node.var < vars }
    requires bucket { bucket ≡ bucket_of node.var node.low node.high (length heads.old.items) }
    ensures puts { IfOk result (λ place. Puts vars nodes.old.items nodes.new.items place node.var node.low node.high) }
    ensures counted { IfOk result (λ _. node_count vars nodes.new.items ≡ node_count vars nodes.old.items + 1) }
    ensures same { OnErr result (nodes.new.items ≡ nodes.old.items) }
    ensures chained { Chained vars nodes.new.items heads.new.items free.new (AllOf nodes.new.items) }
    ensures few { vec_len nodes.new ≤ 0x1_0000_0000 }
    ensures flags { vec_len marks.new ≡ vec_len nodes.new }
    ensures marks { (q : ℕ) → flag marks.new.items q ≡ flag marks.old.items q }
    ensures marked { count_by (λ (s : Bool). s) marks.new.items ≡ count_by (λ s. s) marks.old.items }
    ensures node_room { vec_capacity nodes.old ≤ vec_capacity nodes.new }
    ensures mark_room { vec_capacity marks.old ≤ vec_capacity marks.new }
    ensures none_free { OnErr result (free.old ≡ 0) }
    ensures full { OnErr result (min (min (vec_capacity nodes.old) (vec_capacity marks.old)) 0x1_0000_0000 ≤ vec_len nodes.old) }
{
    let _ = vars;
    let given_back = *free;
    if given_back != 0 {
        *free = nodes[given_back as usize].next;
        nodes[given_back as usize] = node;
        link(nodes, heads, bucket, given_back);
        return Ok(given_back);
    }
    let place = append(nodes, marks, node)?;
    link(nodes, heads, bucket, place);
    Ok(place)
}

/// Gives back each node that is not marked.
pub fn give_back(nodes: &mut Vec<Node>, marks: &[bool], vars: u32)
    requires room { length marks.now ≡ vec_len nodes.old }
    ensures gives_back { GivesBack vars nodes.old.items nodes.new.items marks.now }
    ensures room { vec_capacity nodes.new ≡ vec_capacity nodes.old }
    ensures len { vec_len nodes.new ≡ vec_len nodes.old }
{
    for place in 2..nodes.len() {
        if !marks[place] {
            let node = nodes[place];
            nodes[place] = Node { var: vars, ..node };
        }
    }
}

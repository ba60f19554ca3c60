//! Reduced ordered decision diagrams that share their nodes.
//!
//! For `bdd_ops` and whoever keeps functions. To change it: contracts see a truth table for each live Ref and a few numbers; vector, chains, hashes,
//! results and free list stand in the invariant of `Store` alone (`specs/Chains`, `specs/Graph`).
#![tactic(auto)]

ghost use Rattle.std.specs.Prelude.{◌≡◌, ◌↔◌, ◌⊎◌, ℕ, ◌+◌, ◌-◌, ◌<◌, ◌≤◌, Bool, true, false, IfOk, OnOk, OnErr, IfSome, IfNone, IsNone, if◌then◌else◌, is_ok, min, vec_capacity};
ghost use Rattle.std.specs.Prelude.{List, [], ◌∷◌};
ghost use Rattle.bdd_store.specs.Diagram.{Diagram, IsLive, AreLive, table, tables_of, IsReduced, IsCanonical, first_var, IsConstant, IsProper, DependsFrom, Reaches, held, Keeps, HasMarks, KeepsMarks, IsKept, Sweeps};
ghost use Rattle.bdd_store.specs.Steps.{Grows, Stays, Gives, IsFound};
ghost use Rattle.bdd_store.specs.Results.{AreResults};
ghost use Rattle.bdd_store.specs.Beads.{bead_count};
ghost use Rattle.bdd_store.specs.Graph.{with_at};
ghost use Rattle.bdd_store.specs.declared.Ref.{Ref};

use std::alloc::{AllocError, Global};
use std::marker::Model;
use std::mem;

mod chains;
mod results;
mod visits;

use chains::{Node, add, bucket_of, find, give_back, grow, link_all};
pub use results::Known;
use results::{Entry, counted, forget, wanted, widen};
use visits::{clear, count_below, visit};

/// A function of the store that gave it, of which it says nothing: a Ref means in each store what stands at its place.
#[derive(Clone, Copy, Debug, PartialEq, Eq, PartialOrd, Ord, Hash)]
pub struct Ref {
    place: u32,
}

impl Ref {
    /// The number by which equal Refs are told from others: a key for tables.
    #[inline(always)]
    pub fn place(self) -> u32
        ensures { result ≡ self.place }
    {
        self.place
    }
}

/// An operation and its operands.
#[derive(Clone, Copy, PartialEq, Eq)]
pub enum Operation {
    And(Ref, Ref),
    Or(Ref, Ref),
    Not(Ref),
    /// Each variable is replaced by the one before it.
    Rename(Ref),
    /// The disjunction of the function with the variable at 0 and with it at 1.
    Exists(Ref, u32),
}

/// Functions of a fixed number of variables. It holds fewer than 2^32 nodes.
#[derive(Drop)]
pub struct Store {
    vars: u32,
    calls: u64,
    nodes: Vec<Node>,
    heads: Vec<u32>,
    free: u32,
    held: usize,
    marks: Vec<bool>,
    marked: usize,
    results: Vec<Entry>,
    // How many calls there were when results were last counted, and how many were of use since.
    counted: u64,
    hits: u64,
    // How many nodes it may hold.
    most: u32,
}

impl Model for Store {
    ghost use Rattle.std.specs.Prelude.{vec_capacity, ◌-◌, ◌+◌, min};
    ghost use Rattle.bdd_store.specs.Chains.{Stored};
    ghost use Rattle.bdd_store.specs.Diagram.{Diagram};

    ghost Value = { Diagram };

    ghost view = { λ s. record { vars = s.vars; calls = s.calls; spare = min (min (min (vec_capacity s.nodes) (vec_capacity s.marks)) 0x1_0000_0000) (s.most + 2) - (s.held + 2); nodes = s.nodes.items; marks = s.marks.items } };

    ghost invariant = { λ s. Stored s.vars s.nodes.items s.heads.items s.free s.held s.marks.items s.marked s.results.items };
}

impl Store {
    /// A store that has the two constants.
    pub fn new(alloc: Global, vars: u32) -> Result<Store, AllocError>
        ensures vars { IfOk result (λ s. s.vars ≡ vars) }
        ensures calls { IfOk result (λ s. s.calls ≡ 0) }
        ensures empty { IfOk result (λ s. (r : Ref) → IsLive s r → IsProper s r → ⊥) }
        ensures held { IfOk result (λ s. held s ≡ 0) }
        ensures marks { IfOk result (λ s. HasMarks s []) }
        ensures sound { IfOk result IsReduced }
        ensures canonical { IfOk result IsCanonical }
    {
        let last = Node {
            var: vars,
            low: 0,
            high: 0,
            next: 0,
        };
        let mut nodes = Vec::new(alloc);
        nodes.push(last)?;
        nodes.push(last)?;
        Ok(Store {
            vars,
            calls: 0,
            nodes,
            heads: vec![in alloc; 0; 1]?,
            free: 0,
            held: 0,
            marks: vec![in alloc; false; 2]?,
            marked: 0,
            results: Vec::new(alloc),
            counted: 0,
            hits: 0,
            most: u32::MAX,
        })
    }

    /// From now on `node` refuses a new node where so many are held: want of memory that comes early. What is held stays, also where it is more.
    pub fn hold_at_most(&mut self, most: u32)
        ensures spare { self.new.spare ≤ most - held self.new }
        ensures keeps { Keeps self.old self.new }
        ensures none_fresh { (q : Ref) → IsLive self.new q → IsLive self.old q }
        ensures held { held self.new ≡ held self.old }
        ensures marks { KeepsMarks self.old self.new }
        ensures sound { IsReduced self.new }
        ensures canonical { IsCanonical self.new }
        ensures calls { self.new.calls ≡ self.old.calls }
    {
        self.most = most;
    }

    /// The number of variables.
    #[inline(always)]
    pub fn vars(&self) -> u32
        ensures vars { result ≡ self.now.vars }
        ensures sound { IsReduced self.now }
        ensures canonical { IsCanonical self.now }
    {
        self.vars
    }

    /// How many calls of `node` answered Ok.
    pub fn calls(&self) -> u64
        ensures calls { result ≡ self.now.calls }
    {
        self.calls
    }

    /// The number of nodes, and at least the number of beads of any functions of the store.
    pub fn held(&self) -> usize
        ensures held { result ≡ held self.now }
        ensures most { (rs : List Ref) → AreLive self.now rs → bead_count self.now.vars (tables_of self.now rs) ≤ result }
    {
        self.held
    }

    /// The constant function.
    pub fn constant(&self, value: bool) -> Ref
        ensures live { IsLive self.now result }
        ensures constant { IsConstant self.now result value }
        ensures first { first_var self.now result ≡ self.now.vars }
    {
        let _ = &self.vars;
        if value {
            Ref { place: 1 }
        } else {
            Ref { place: 0 }
        }
    }

    /// Makes room for `n` more nodes.
    pub fn reserve(&mut self, n: usize) -> Result<(), AllocError>
        ensures room { OnOk result (n ≤ self.new.spare) }
        ensures keeps { Keeps self.old self.new }
        ensures none_fresh { (q : Ref) → IsLive self.new q → IsLive self.old q }
        ensures held { held self.new ≡ held self.old }
        ensures marks { KeepsMarks self.old self.new }
        ensures sound { IsReduced self.new }
        ensures canonical { IsCanonical self.new }
        ensures calls { self.new.calls ≡ self.old.calls }
        ensures spare { self.old.spare ≤ self.new.spare }
    {
        let used = self.held + 2;
        if n > 0x1_0000_0000 - used || n > (self.most as usize).saturating_sub(self.held) {
            return Err(AllocError);
        }
        let more = (used + n).saturating_sub(self.nodes.len());
        self.nodes.reserve(more)?;
        self.marks.reserve(more)
    }

    /// The function that is `low` where the variable is 0 and `high` where it is 1.
    pub fn node(&mut self, var: u32, low: Ref, high: Ref) -> Result<Ref, AllocError>
        requires var_in { var < self.old.vars }
        requires low_live { IsLive self.old low }
        requires high_live { IsLive self.old high }
        requires low_later { var < first_var self.old low }
        requires high_later { var < first_var self.old high }

        // The result, and what it reaches.
        ensures live { IfOk result (λ r. IsLive self.new r) }
        ensures first { IfOk result (λ r. var ≤ first_var self.new r) }
        ensures table { IfOk result (λ r. (a : ℕ → Bool) → table self.new r a ≡ (if a var then table self.old high a else table self.old low a)) }
        ensures reached { IfOk result (λ r. (q : Ref) → IsLive self.old q → Reaches self.old low q ⊎ Reaches self.old high q → Reaches self.new r q) }

        // What stays.
        ensures keeps { Keeps self.old self.new }
        ensures marks { KeepsMarks self.old self.new }
        ensures sound { IsReduced self.new }
        ensures canonical { IsCanonical self.new }

        // At most one node is new.
        ensures fresh { IfOk result (λ r. (q : Ref) → IsLive self.new q → IsLive self.old q ⊎ (q ≡ r)) }
        ensures none_fresh { OnErr result ((q : Ref) → IsLive self.new q → IsLive self.old q) }
        ensures held { held self.new ≤ held self.old + (if is_ok result then 1 else 0) }
        ensures held_found { (q : Ref) → IsLive self.old q → ((a : ℕ → Bool) → table self.old q a ≡ (if a var then table self.old high a else table self.old low a)) → held self.new ≡ held self.old }

        ensures calls { self.new.calls ≡ (if is_ok result then min (self.old.calls + 1) 0xFFFF_FFFF_FFFF_FFFF else self.old.calls) }
        ensures spare { self.old.spare ≤ self.new.spare + 1 }
        ensures refused { OnErr result (self.old.spare ≡ 0) }
    {
        let answer = self.find_or_add(var, low, high);
        self.make_room();
        answer
    }

    // Makes more chains where there are fewer than two for each node.
    #[inline(always)]
    fn make_room(&mut self)
        ensures stays { Stays self.old self.new }
        ensures calls { self.new.calls ≡ self.old.calls }
        ensures spare { self.new.spare ≡ self.old.spare }
    {
        if self.nodes.len() > self.heads.len() / 2 {
            self.free = grow(&mut self.nodes, &mut self.heads, self.free, self.vars);
        }
    }

    // The node, which is found in the chain of its hash or put there.
    #[inline(always)]
    fn find_or_add(&mut self, var: u32, low: Ref, high: Ref) -> Result<Ref, AllocError>
        requires var_in { var < self.old.vars }
        requires low_live { IsLive self.old low }
        requires high_live { IsLive self.old high }
        requires low_later { var < first_var self.old low }
        requires high_later { var < first_var self.old high }
        ensures grows { Grows self.old self.new }
        ensures gives { IfOk result (λ r. Gives self.old self.new var low high r) }
        ensures none_fresh { OnErr result ((q : Ref) → IsLive self.new q → IsLive self.old q) }
        ensures held { held self.new ≤ held self.old + (if is_ok result then 1 else 0) }
        ensures held_found { (q : Ref) → IsLive self.old q → IsFound self.old var low high q → held self.new ≡ held self.old }
        ensures calls { self.new.calls ≡ (if is_ok result then min (self.old.calls + 1) 0xFFFF_FFFF_FFFF_FFFF else self.old.calls) }
        ensures spare { self.old.spare ≤ self.new.spare + 1 }
        ensures refused { OnErr result (self.old.spare ≡ 0) }
    {
        if low.place == high.place {
            self.calls = self.calls.saturating_add(1);
            return Ok(low);
        }
        let node = Node {
            var,
            low: low.place,
            high: high.place,
            next: 0,
        };
        let bucket = bucket_of(var, node.low, node.high, self.heads.len());
        let found = find(&self.nodes, self.heads[bucket], var, node.low, node.high);
        if found != 0 {
            self.calls = self.calls.saturating_add(1);
            return Ok(Ref { place: found });
        }
        if self.held >= self.most as usize {
            return Err(AllocError);
        }
        let place = add(
            &mut self.nodes,
            &mut self.marks,
            &mut self.heads,
            &mut self.free,
            self.vars,
            bucket,
            node,
        )?;
        self.held += 1;
        self.calls = self.calls.saturating_add(1);
        Ok(Ref { place })
    }

    /// The value that the function has everywhere, if there is one.
    #[inline(always)]
    pub fn is_constant(&self, r: Ref) -> Option<bool>
        requires { IsLive self.now r }
        ensures some { IfSome result (λ x. IsConstant self.now r x) }
        ensures none { IfNone result ((x : Bool) → IsConstant self.now r x → ⊥) }
        ensures proper { IsNone result ↔ IsProper self.now r }
    {
        let _ = &self.vars;
        if r.place < 2 {
            Some(r.place == 1)
        } else {
            None
        }
    }

    /// The first variable on which the function depends.
    #[inline(always)]
    pub fn var(&self, r: Ref) -> u32
        requires live { IsLive self.now r }
        requires proper { IsProper self.now r }
        ensures var { result ≡ first_var self.now r }
        ensures within { result < self.now.vars }
        ensures from { DependsFrom self.now r result }
        ensures first { DependsFrom self.now r (result + 1) → ⊥ }
    {
        self.nodes[r.place as usize].var
    }

    /// The function with its first variable at 0.
    #[inline(always)]
    pub fn low(&self, r: Ref) -> Ref
        requires live { IsLive self.now r }
        requires proper { IsProper self.now r }
        ensures live { IsLive self.now result }
        ensures table { (a : ℕ → Bool) → table self.now result a ≡ table self.now r (with_at a (first_var self.now r) false) }
        ensures first { first_var self.now r < first_var self.now result }
        ensures reached { (f : Ref) → IsLive self.now f → Reaches self.now f r → Reaches self.now f result }
    {
        Ref {
            place: self.nodes[r.place as usize].low,
        }
    }

    /// The function with its first variable at 1.
    #[inline(always)]
    pub fn high(&self, r: Ref) -> Ref
        requires live { IsLive self.now r }
        requires proper { IsProper self.now r }
        ensures live { IsLive self.now result }
        ensures table { (a : ℕ → Bool) → table self.now result a ≡ table self.now r (with_at a (first_var self.now r) true) }
        ensures first { first_var self.now r < first_var self.now result }
        ensures reached { (f : Ref) → IsLive self.now f → Reaches self.now f r → Reaches self.now f result }
    {
        Ref {
            place: self.nodes[r.place as usize].high,
        }
    }

    /// The number of beads of the roots' tables.
    pub fn count(&self, roots: &[Ref]) -> Result<usize, AllocError>
        requires { AreLive self.now roots.now }
        ensures { IfOk result (λ n. n ≡ bead_count self.now.vars (tables_of self.now roots.now)) }
    {
        let mut seen = vec![in *self.nodes.allocator(); false; self.nodes.len()]?;
        Ok(count_below(&self.nodes, &mut seen, self.vars, roots))
    }

    /// Takes the marks away: the next mark begins a new count. No memory is needed, and no function changes.
    pub fn clear_marks(&mut self)
        ensures marks { HasMarks self.new [] }
        ensures keeps { Keeps self.old self.new }
        ensures none_fresh { (q : Ref) → IsLive self.new q → IsLive self.old q }
        ensures held { held self.new ≡ held self.old }
        ensures sound { IsReduced self.new }
        ensures canonical { IsCanonical self.new }
        ensures calls { self.new.calls ≡ self.old.calls }
        ensures spare { self.new.spare ≡ self.old.spare }
    {
        clear(&mut self.marks);
        self.marked = 0;
    }

    /// Marks the function's table, and gives the number of beads of all tables that were marked since the last clear.
    pub fn mark(&mut self, r: Ref) -> usize
        requires { IsLive self.old r }
        ensures marks { (fs : List Ref) → AreLive self.old fs → HasMarks self.old fs → HasMarks self.new (r ∷ fs) }
        ensures count { (fs : List Ref) → AreLive self.old fs → HasMarks self.old fs → result ≡ bead_count self.old.vars (tables_of self.old (r ∷ fs)) }
        ensures keeps { Keeps self.old self.new }
        ensures none_fresh { (q : Ref) → IsLive self.new q → IsLive self.old q }
        ensures held { held self.new ≡ held self.old }
        ensures sound { IsReduced self.new }
        ensures canonical { IsCanonical self.new }
        ensures calls { self.new.calls ≡ self.old.calls }
        ensures spare { self.new.spare ≡ self.old.spare }
    {
        self.marked = visit(
            &self.nodes,
            &mut self.marks,
            self.vars,
            r.place,
            self.marked,
        );
        self.marked
    }

    /// Gives back each node that no root reaches, and takes the marks away.
    pub fn sweep(&mut self, roots: &[Ref])
        requires { AreLive self.old roots.now }
        ensures sweeps { Sweeps self.old self.new roots.now }
        ensures kept { (r : Ref) → IsLive self.new r → IsKept self.new roots.now r }
        ensures held { held self.new ≡ bead_count self.new.vars (tables_of self.new roots.now) }
        ensures beads { held self.new ≡ bead_count self.old.vars (tables_of self.old roots.now) }
        ensures marks { HasMarks self.new [] }
        ensures sound { IsReduced self.new }
        ensures canonical { IsCanonical self.new }
        ensures calls { self.new.calls ≡ self.old.calls }
        ensures spare { self.old.spare ≤ self.new.spare }
    {
        clear(&mut self.marks);
        self.held = count_below(&self.nodes, &mut self.marks, self.vars, roots);
        give_back(&mut self.nodes, &self.marks, self.vars);
        self.free = link_all(&mut self.nodes, &mut self.heads, self.vars);
        clear(&mut self.marks);
        self.marked = 0;
        forget(&mut self.results);
    }

    /// Lends the results of operations that it knows.
    pub fn lend(&mut self) -> Known
        ensures same { self.new ≡ self.old }
        ensures known { AreResults self.new result }
    {
        let has = self.results.len();
        let puts = self.calls.saturating_sub(self.counted);
        let places = wanted(has, puts, self.hits, self.heads.len());
        let (counted, hits) = counted(has, self.calls, self.counted, self.hits);
        self.counted = counted;
        let none = Vec::new(*self.nodes.allocator());
        let mut results = mem::replace(&mut self.results, none);
        widen(&mut results, places);
        Known { results, hits }
    }

    /// Takes back what was lent, and keeps it until a sweep forgets all.
    pub fn take_back(&mut self, known: Known)
        requires { AreResults self.old known }
        ensures { self.new ≡ self.old }
    {
        self.hits = known.hits;
        self.results = known.results;
    }
}

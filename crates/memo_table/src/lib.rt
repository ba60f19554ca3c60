//! The results of an operation on functions of a store, kept by its two operands.
//!
//! For `bdd_ops`, within one call. To change it: it is exact as a list, the later of two results for one pair counts; chains stand in the invariant.
#![tactic(auto)]

ghost use Rattle.std.specs.Prelude.{◌≡◌, ℕ, ◌+◌, ◌<◌, ◌≤◌, [], ◌∷◌, length, vec_len, OnOk, OnErr, IfOk, slice_index};
ghost use Rattle.memo_table.specs.Results.{result_of};
ghost use Rattle.memo_table.specs.Table.{bucket_of, kept, Chained, SameResults, IsTable};

use bdd_store::Ref;
use std::alloc::{AllocError, Global};
use std::marker::Model;

// A result, and the number of the entry before it in its chain, counted from 1; 0 ends a chain.
#[derive(Clone, Copy)]
struct Entry {
    first: Ref,
    second: Ref,
    answer: Ref,
    next: u32,
}

/// Results by pairs of operands. Of two results for one pair the later counts.
#[derive(Drop)]
pub struct Memo {
    entries: Vec<Entry>,
    heads: Vec<u32>,
}

impl Model for Memo {
    ghost use Rattle.std.specs.Prelude.{length};
    ghost use Rattle.memo_table.specs.Results.{Results};

    ghost Value = { Results };

    ghost use Rattle.memo_table.specs.Table.{kept, IsTable};

    ghost view = { λ m. kept m.entries.items (length m.entries.items) };

    ghost invariant = { λ m. IsTable m.entries.items m.heads.items };
}

impl Memo {
    /// No results.
    pub fn new(alloc: Global) -> Memo
        ensures empty { result ≡ [] }
    {
        Memo {
            entries: Vec::new(alloc),
            heads: Vec::new(alloc),
        }
    }

    /// The result for two operands.
    #[inline(always)]
    pub fn get(&self, first: Ref, second: Ref) -> Option<Ref>
        ensures value { result ≡ result_of self.now (first, second) }
    {
        find(&self.entries, &self.heads, first, second)
    }

    /// Keeps a result for two operands.
    pub fn insert(&mut self, first: Ref, second: Ref, answer: Ref) -> Result<(), AllocError>
        ensures ok { OnOk result (self.new ≡ ((first, second), answer) ∷ self.old) }
        ensures err { OnErr result (self.new ≡ self.old) }
    {
        make_room(&mut self.entries, &mut self.heads)?;
        put(&mut self.entries, &mut self.heads, first, second, answer)
    }
}

// The chain of a pair, among `len` chains.
#[inline(always)]
fn bucket_of(first: Ref, second: Ref, len: usize) -> usize
    requires { 0 < len }
    ensures bucket { result ≡ bucket_of len first second }
    ensures within { result < len }
{
    let mixed = (first.place() as u64)
        .wrapping_mul(0x9E37_79B9_7F4A_7C15)
        .wrapping_add((second.place() as u64).wrapping_mul(0xC2B2_AE3D_27D4_EB4F));
    ((mixed >> 32) as usize) & (len - 1)
}

// The last result for a pair.
#[inline(always)]
fn find(entries: &[Entry], heads: &[u32], first: Ref, second: Ref) -> Option<Ref>
    requires { IsTable entries.now heads.now }
    ensures { result ≡ result_of (kept entries.now (length entries.now)) (first, second) }
{
    if heads.len() == 0 {
        return find_among(entries, first, second);
    }
    let bucket = bucket_of(first, second, heads.len());
    let mut at = heads[bucket];
    while at != 0 {
        let entry = &entries[at as usize - 1];
        if entry.first == first && entry.second == second {
            return Some(entry.answer);
        }
        at = entry.next;
    }
    None
}

// The last result for a pair, where there are no chains.
fn find_among(entries: &[Entry], first: Ref, second: Ref) -> Option<Ref>
    ensures { result ≡ result_of (kept entries.now (length entries.now)) (first, second) }
{
    let mut at = entries.len();
    while at != 0 {
        at -= 1;
        let last = &entries[at];
        if last.first == first && last.second == second {
            return Some(last.answer);
        }
    }
    None
}

// Makes room for one more entry.
fn make_room(entries: &mut Vec<Entry>, heads: &mut Vec<u32>) -> Result<(), AllocError>
    requires table { IsTable entries.old.items heads.old.items }
    ensures table { IsTable entries.new.items heads.new.items }
    ensures room { OnOk result (0 < vec_len heads.new → vec_len entries.new < vec_len heads.new) }
    ensures small { OnOk result (vec_len heads.new ≡ 0 → vec_len entries.new < 16) }
    ensures same { kept entries.new.items (length entries.new.items) ≡ kept entries.old.items (length entries.old.items) }
{
    if heads.len() == 0 && entries.len() < 16 {
        return Ok(());
    }
    if entries.len() < heads.len() {
        return Ok(());
    }
    let fresh = grow(entries, heads)?;
    *heads = fresh;
    Ok(())
}

// Puts a result at the head of its chain.
fn put(
    entries: &mut Vec<Entry>,
    heads: &mut Vec<u32>,
    first: Ref,
    second: Ref,
    answer: Ref,
) -> Result<(), AllocError>
    requires table { IsTable entries.old.items heads.old.items }
    requires room { 0 < vec_len heads.old → vec_len entries.old < vec_len heads.old }
    requires small { vec_len heads.old ≡ 0 → vec_len entries.old < 16 }
    ensures table { IsTable entries.new.items heads.new.items }
    ensures ok { OnOk result (kept entries.new.items (length entries.new.items) ≡ ((first, second), answer) ∷ kept entries.old.items (length entries.old.items)) }
    ensures err { OnErr result (kept entries.new.items (length entries.new.items) ≡ kept entries.old.items (length entries.old.items)) }
{
    if heads.len() == 0 {
        entries.push(Entry {
            first,
            second,
            answer,
            next: 0,
        })?;
        return Ok(());
    }
    let bucket = bucket_of(first, second, heads.len());
    entries.push(Entry {
        first,
        second,
        answer,
        next: heads[bucket],
    })?;
    heads[bucket] = entries.len() as u32;
    Ok(())
}

// Four times as many chains, with each entry in its own; and room for more entries.
fn grow(entries: &mut Vec<Entry>, heads: &Vec<u32>) -> Result<Vec<u32>, AllocError>
    requires table { IsTable entries.old.items heads.now.items }
    ensures table { IfOk result (λ fresh. IsTable entries.new.items fresh.items) }
    ensures room { IfOk result (λ fresh. vec_len entries.new < vec_len fresh) }
    ensures same { kept entries.new.items (length entries.new.items) ≡ kept entries.old.items (length entries.old.items) }
    ensures err { OnErr result (entries.new.items ≡ entries.old.items) }
{
    let len = heads.len();
    if len >= 0x4000_0000 {
        return Err(AllocError);
    }
    let wide = if len == 0 { 64 } else { 4 * len };
    let mut fresh = vec![in *heads.allocator(); 0; wide]?;
    entries.reserve(len + 16)?;
    link_all(entries, &mut fresh);
    Ok(fresh)
}

// Puts each entry into its chain, where all chains are empty.
fn link_all(entries: &mut Vec<Entry>, heads: &mut Vec<u32>)
    requires some { 0 < vec_len heads.old }
    requires room { vec_len entries.old ≤ vec_len heads.old }
    requires few { vec_len heads.old < 0x1_0000_0000 }
    requires empty { (b : ℕ) → b < vec_len heads.old → slice_index heads.old.items b ≡ 0 }
    ensures chained { Chained (length heads.new.items) entries.new.items heads.new.items (length entries.new.items) }
    ensures same { SameResults entries.old.items entries.new.items }
    ensures len { vec_len heads.new ≡ vec_len heads.old }
{
    for i in 0..entries.len() {
        let entry = entries[i];
        let bucket = bucket_of(entry.first, entry.second, heads.len());
        entries[i] = Entry {
            next: heads[bucket],
            ..entry
        };
        heads[bucket] = i as u32 + 1;
    }
}

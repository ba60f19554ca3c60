// What is known of expressions under bindings, so that it is found again.
ghost use Rattle.std.specs.Prelude.{◌≡◌, [], ◌∷◌, ◌++◌, OnOk, IfSome};
ghost use Rattle.smv_free_variables.specs.Known.{IsKnownOf};

use crate::alike::agree;
use crate::digest::digest_of;
use crate::equal::is_equal;
use smv_core::flat::FlatExpr;
use smv_core::seq::Seq;
use smv_spots::spots::Spot;
use std::alloc::{AllocError, Global};
use std::collections::HashMap;

/// What is known of an expression under bindings.
#[derive(Drop)]
pub struct Entry<'a, A> {
    pub of: &'a FlatExpr,
    pub bindings: Seq<Spot>,
    pub answer: A,
}

/// What is known of expressions under bindings, in the order in which it was remembered. The places are by the digests of expressions and bindings, and only a hint: what is found there is compared.
#[derive(Drop)]
pub struct Known<'a, A> {
    pub entries: Vec<Entry<'a, A>>,
    places: HashMap<u64, usize>,
}

/// Nothing yet.
pub fn nothing_known<'a, A>(alloc: Global) -> Known<'a, A>
    ensures { result.entries.items ≡ [] }
{
    Known {
        entries: Vec::new(alloc),
        places: HashMap::new(alloc),
    }
}

impl<'a, A: Copy> Known<'a, A> {
    /// What is known of an expression that differs from this one by its places in the text alone, under bindings that agree with these on what it reads. Where two have one digest, only the later is found.
    pub fn find(&self, e: &FlatExpr, b: &[Spot]) -> Option<A>
        ensures { IfSome result (λ answer. IsKnownOf self.now.entries.items e.now b.now answer) }
    {
        let place = self.places.get(&digest_of(e, b)).copied()?;
        let entry = self.entries.get(place)?;
        if is_equal(entry.of, e) && agree(e, entry.bindings.as_slice(), b) {
            Some(entry.answer)
        } else {
            None
        }
    }

    /// Remembers what an expression is under these bindings.
    pub fn remember(
        &mut self,
        alloc: Global,
        e: &'a FlatExpr,
        b: &[Spot],
        answer: A,
    ) -> Result<(), AllocError>
        ensures { OnOk result (self.new.entries.items ≡ self.old.entries.items ++ record { of = e.entry; bindings = b.now; answer = answer } ∷ []) }
    {
        let bindings = Seq::from_vec(Vec::from_slice(alloc, b)?);
        let place = self.entries.len();
        self.places.insert(digest_of(e, b), place)?;
        self.entries.push(Entry {
            of: e,
            bindings,
            answer,
        })?;
        Ok(())
    }
}

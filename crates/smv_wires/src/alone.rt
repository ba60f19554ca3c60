// Whether at each assignment exactly one of some conditions holds.
ghost use Rattle.std.specs.Prelude.{◌≡◌, ℕ, Bool, true, false, List, map, IfOk};
ghost use Rattle.bdd_store.specs.Diagram.{IsLive, Keeps, table};
ghost use Rattle.smv_conditions.specs.Offers.{AreOffersMade};
ghost use Rattle.smv_wires.specs.Wired.{whens, HoldsAlone};

use bdd_ops::{and, or};
use bdd_store::{Ref, Store};
use smv_conditions::offers::Offer;
use std::alloc::{AllocError, Global};

// The most beads that the conditions of a cell may have together. To read cells of larger functions can take longer than the whole search does where their elements have bits.
const MOST_BEADS: usize = 1000;

// How many beads are marked behind these conditions.
fn marked_behind(store: &mut Store, count: usize, offers: &[Offer<Ref>]) -> usize
    requires made { AreOffersMade (IsLive store.old) offers.now }
    ensures keeps { Keeps store.old store.new }
{
    let Some((offer, others)) = offers.split_first() else {
        return count;
    };
    let marked = store.mark(offer.when);
    marked_behind(store, marked, others)
}

// Whether these conditions have few beads.
fn are_small(store: &mut Store, offers: &[Offer<Ref>]) -> bool
    requires made { AreOffersMade (IsLive store.old) offers.now }
    ensures keeps { Keeps store.old store.new }
{
    store.clear_marks();
    marked_behind(store, 0, offers) <= MOST_BEADS
}

// Whether a function is a constant.
fn is_always(store: &Store, r: Ref, value: bool) -> bool
    requires { IsLive store.now r }
    ensures { result ≡ true → (a : ℕ → Bool) → table store.now r a ≡ value }
{
    match store.is_constant(r) {
        Some(constant) => constant == value,
        None => false,
    }
}

// Whether exactly one holds of that one of those before does and of these conditions.
fn is_alone_behind(
    alloc: Global,
    store: &mut Store,
    found: Ref,
    offers: &[Offer<Ref>],
) -> Result<bool, AllocError>
    requires found { IsLive store.old found }
    requires made { AreOffersMade (IsLive store.old) offers.now }
    ensures keeps { Keeps store.old store.new }
    ensures alone { IfOk result (λ alone. alone ≡ true → (a : ℕ → Bool) → HoldsAlone (table store.old found a) (whens store.old a offers.now)) }
{
    let Some((offer, others)) = offers.split_first() else {
        return Ok(is_always(store, found, true));
    };
    let both = and(alloc, store, found, offer.when)?;
    if !is_always(store, both, false) {
        return Ok(false);
    }
    let either = or(alloc, store, found, offer.when)?;
    let alone = is_alone_behind(alloc, store, either, others)?;
    Ok(alone)
}

/// Whether at each assignment exactly one of these conditions holds, and they have few beads.
pub(crate) fn is_alone(
    alloc: Global,
    store: &mut Store,
    offers: &[Offer<Ref>],
) -> Result<bool, AllocError>
    requires made { AreOffersMade (IsLive store.old) offers.now }
    ensures keeps { Keeps store.old store.new }
    ensures alone { IfOk result (λ alone. alone ≡ true → (a : ℕ → Bool) → HoldsAlone false (whens store.old a offers.now)) }
{
    if !are_small(store, offers) {
        return Ok(false);
    }
    let never = store.constant(false);
    let alone = is_alone_behind(alloc, store, never, offers)?;
    Ok(alone)
}

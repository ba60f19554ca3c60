//! Functions of codes: which number the bits at some places spell, as diagrams.
//!
//! For the encoder, which gives each value of an element the function "the element's code is that of this value". The bit at place p of the current state is read at variable 2p,
//! and that of the next state at variable 2p + 1. All codes are made at once, from the last place on, each place doubling them. Places may stand in any order: where they rise, as the
//! declared ones do, each code is one node more, so that all of an element take at most twice as many nodes as it has codes; elsewhere codes are conjunctions. A reader begins with `specs/Codes`.
#![tactic(auto)]

ghost use Rattle.std.specs.Prelude.{◌≡◌, ℕ, ◌∷◌, ◌+◌, ◌-◌, ◌*◌, ◌^◌, ◌<◌, ◌≤◌, Bool, true, List, IfOk, OnOk, if◌then◌else◌, length, min, not, nat_le, nat_lt};
ghost use Rattle.bdd_store.specs.Diagram.{IsLive, AreLive, Keeps, table, first_var};
ghost use Rattle.bdd_codes.specs.Codes.{bits_at, code_at, AreWithin, AreCodes, AreValues};

use bdd_ops::{and, not, or};
use bdd_store::{Ref, Store};
use std::alloc::{AllocError, Global};

// The variable of the bit at a place.
fn variable(store: &Store, place: u16, next: bool) -> u32
    requires { 2 * (place + 1) ≤ store.now.vars }
    ensures within { result < store.now.vars }
    ensures is { (a : ℕ → Bool) → a result ≡ bits_at next a place }
{
    let _ = store.vars();
    let first = 2 * u32::from(place);
    if next { first + 1 } else { first }
}

// A variable stands before all that a function depends on.
fn is_before(store: &Store, var: u32, f: Ref) -> bool
    requires live { IsLive store.now f }
    requires within { var < store.now.vars }
    ensures before { result ≡ true → var < first_var store.now f }
{
    let _ = store.vars();
    if store.is_constant(f).is_some() {
        return true;
    }
    var < store.var(f)
}

// One function where a variable is 0, and another where it is 1, whatever variables these depend on.
fn choose(
    alloc: Global,
    store: &mut Store,
    var: u32,
    low: Ref,
    high: Ref,
) -> Result<Ref, AllocError>
    requires within { var < store.old.vars }
    requires low { IsLive store.old low }
    requires high { IsLive store.old high }
    ensures keeps { Keeps store.old store.new }
    ensures live { IfOk result (λ r. IsLive store.new r) }
    ensures table { IfOk result (λ r. (a : ℕ → Bool) → table store.new r a ≡ (if a var then table store.old high a else table store.old low a)) }
{
    if is_before(store, var, low) && is_before(store, var, high) {
        let r = store.node(var, low, high)?;
        return Ok(r);
    }
    choose_anywhere(alloc, store, var, low, high)
}

// The same, by conjunctions.
fn choose_anywhere(
    alloc: Global,
    store: &mut Store,
    var: u32,
    low: Ref,
    high: Ref,
) -> Result<Ref, AllocError>
    requires within { var < store.old.vars }
    requires low { IsLive store.old low }
    requires high { IsLive store.old high }
    ensures keeps { Keeps store.old store.new }
    ensures live { IfOk result (λ r. IsLive store.new r) }
    ensures table { IfOk result (λ r. (a : ℕ → Bool) → table store.new r a ≡ (if a var then table store.old high a else table store.old low a)) }
{
    let never = store.constant(false);
    let always = store.constant(true);
    let one = store.node(var, never, always)?;
    let zero = store.node(var, always, never)?;
    let low_part = and(alloc, store, zero, low)?;
    let high_part = and(alloc, store, one, high)?;
    let r = or(alloc, store, low_part, high_part)?;
    Ok(r)
}

// The codes with one bit more before them, where that bit is 0.
fn low_half(
    alloc: Global,
    store: &mut Store,
    place: u16,
    next: bool,
    later: &[Ref],
) -> Result<Vec<Ref>, AllocError>
    requires room { 2 * (place + 1) ≤ store.old.vars }
    requires later { AreLive store.old later.now }
    ensures keeps { Keeps store.old store.new }
    ensures count { IfOk result (λ codes. length codes.items ≡ length later.now) }
    ensures live { IfOk result (λ codes. AreLive store.new codes.items) }
    ensures codes { IfOk result (λ codes. (lower : List ℕ) → AreCodes store.old next lower later.now → length later.now ≤ 2 ^ length lower → AreCodes store.new next (place ∷ lower) codes.items) }
{
    let var = variable(store, place, next);
    let never = store.constant(false);
    let mut codes = Vec::new(alloc);
    for i in 0..later.len() {
        let code = choose(alloc, store, var, later[i], never)?;
        codes.push(code)?;
    }
    Ok(codes)
}

// Behind them those where it is 1, up to a number of codes.
fn add_high_half(
    alloc: Global,
    store: &mut Store,
    place: u16,
    next: bool,
    later: &[Ref],
    most: usize,
    codes: &mut Vec<Ref>,
) -> Result<(), AllocError>
    requires room { 2 * (place + 1) ≤ store.old.vars }
    requires later { AreLive store.old later.now }
    requires live { AreLive store.old codes.old.items }
    requires count { length codes.old.items ≡ length later.now }
    ensures keeps { Keeps store.old store.new }
    ensures live { OnOk result (AreLive store.new codes.new.items) }
    ensures count { OnOk result ((width : ℕ) → length later.now ≡ min (2 ^ width) most → length codes.new.items ≡ min (2 ^ (width + 1)) most) }
    ensures codes { OnOk result ((lower : List ℕ) → length later.now ≡ min (2 ^ length lower) most → AreCodes store.old next lower later.now → AreCodes store.old next (place ∷ lower) codes.old.items → AreCodes store.new next (place ∷ lower) codes.new.items) }
{
    let var = variable(store, place, next);
    let never = store.constant(false);
    for i in 0..later.len() {
        if codes.len() >= most {
            return Ok(());
        }
        let code = choose(alloc, store, var, never, later[i])?;
        codes.push(code)?;
    }
    Ok(())
}

/// The functions of the codes of the bits at these places, in order, up to a number of codes.
pub fn codes(
    alloc: Global,
    store: &mut Store,
    next: bool,
    places: &[u16],
    most: usize,
) -> Result<Vec<Ref>, AllocError>
    requires room { AreWithin store.old places.now }
    requires some { 1 ≤ most }
    ensures keeps { Keeps store.old store.new }
    ensures count { IfOk result (λ codes. length codes.items ≡ min (2 ^ length places.now) most) }
    ensures live { IfOk result (λ codes. AreLive store.new codes.items) }
    ensures codes { IfOk result (λ codes. AreCodes store.new next places.now codes.items) }
{
    let _ = store.vars();
    let Some((place, lower)) = places.split_first() else {
        let mut codes = Vec::new(alloc);
        codes.push(store.constant(true))?;
        return Ok(codes);
    };
    let later = codes(alloc, store, next, lower, most)?;
    let mut codes = low_half(alloc, store, *place, next, later.as_slice())?;
    add_high_half(
        alloc,
        store,
        *place,
        next,
        later.as_slice(),
        most,
        &mut codes,
    )?;
    Ok(codes)
}

/// The function "the code is at least this number".
pub fn at_least(
    alloc: Global,
    store: &mut Store,
    next: bool,
    places: &[u16],
    least: u32,
) -> Result<Ref, AllocError>
    requires room { AreWithin store.old places.now }
    requires width { length places.now ≤ 32 }
    ensures keeps { Keeps store.old store.new }
    ensures live { IfOk result (λ r. IsLive store.new r) }
    ensures table { IfOk result (λ r. (a : ℕ → Bool) → table store.new r a ≡ nat_le least (code_at next places.now a)) }
{
    let _ = store.vars();
    if least == 0 {
        return Ok(store.constant(true));
    }
    let Some((place, lower)) = places.split_first() else {
        return Ok(store.constant(false));
    };
    let var = variable(store, *place, next);
    let half = 1 << lower.len();
    if least < half {
        let low = at_least(alloc, store, next, lower, least)?;
        let high = store.constant(true);
        let r = choose(alloc, store, var, low, high)?;
        Ok(r)
    } else {
        let high = at_least(alloc, store, next, lower, least - half)?;
        let low = store.constant(false);
        let r = choose(alloc, store, var, low, high)?;
        Ok(r)
    }
}

/// The functions "the code is read as value k" for so many values: a code above the last value is read as the last.
pub fn values(
    alloc: Global,
    store: &mut Store,
    next: bool,
    places: &[u16],
    count: u32,
) -> Result<Vec<Ref>, AllocError>
    requires room { AreWithin store.old places.now }
    requires width { length places.now ≤ 32 }
    requires some { 1 ≤ count }
    requires enough { count ≤ 2 ^ length places.now }
    ensures keeps { Keeps store.old store.new }
    ensures count { IfOk result (λ values. length values.items ≡ count) }
    ensures live { IfOk result (λ values. AreLive store.new values.items) }
    ensures values { IfOk result (λ values. AreValues store.new next places.now values.items) }
{
    let mut values = codes(alloc, store, next, places, count as usize)?;
    let last = count - 1;
    values[last as usize] = at_least(alloc, store, next, places, last)?;
    Ok(values)
}

/// The function "the code is below this number".
pub fn below(
    alloc: Global,
    store: &mut Store,
    next: bool,
    places: &[u16],
    count: u32,
) -> Result<Ref, AllocError>
    requires room { AreWithin store.old places.now }
    requires width { length places.now ≤ 32 }
    ensures keeps { Keeps store.old store.new }
    ensures live { IfOk result (λ r. IsLive store.new r) }
    ensures table { IfOk result (λ r. (a : ℕ → Bool) → table store.new r a ≡ nat_lt (code_at next places.now a) count) }
{
    let reached = at_least(alloc, store, next, places, count)?;
    let r = not(alloc, store, reached)?;
    Ok(r)
}

// What is asked of a function: whether it is constant, whether it implies another, where it is 1, on what it depends.
ghost use Rattle.std.specs.Prelude.{◌≡◌, ◌↔◌, ◌⊎◌, ℕ, ◌<◌, Bool, true, false, IfOk, OnOk, IfSome, IsNone, IsTrue, length};
ghost use Rattle.bdd_store.specs.Graph.{with_at};
ghost use Rattle.bdd_store.specs.Diagram.{IsLive, table, first_var, IsConstant, IsProper};
ghost use Rattle.bdd_ops.specs.Functions.{depends, bit_at};
ghost use Rattle.bdd_ops.specs.Memo.{Implies, AreImplied, AreFlagged};

use crate::split;
use bdd_store::{Ref, Store};
use std::alloc::{AllocError, Global};
use std::collections::HashSet;

/// The function is 1 everywhere.
fn is_always(store: &Store, f: Ref) -> bool
    requires { IsLive store.now f }
    ensures { IsTrue result ↔ IsConstant store.now f true }
{
    match store.is_constant(f) {
        Some(x) => x,
        None => false,
    }
}

/// No assignment has f at 1 and g at 0.
fn implies_from(
    store: &Store,
    known: &mut HashSet<(Ref, Ref)>,
    f: Ref,
    g: Ref,
) -> Result<bool, AllocError>
    requires f_live { IsLive store.now f }
    requires g_live { IsLive store.now g }
    requires known { AreImplied store.now known.old }
    ensures means { IfOk result (λ x. IsTrue x ↔ Implies store.now f g) }
    ensures known { AreImplied store.now known.new }
{
    if let Some(x) = store.is_constant(f) {
        if x {
            return Ok(is_always(store, g));
        }
        return Ok(true);
    }
    if let Some(x) = store.is_constant(g) {
        return Ok(x);
    }
    if f == g {
        return Ok(true);
    }
    if known.contains(&(f, g)) {
        return Ok(true);
    }
    let f_var = store.var(f);
    let g_var = store.var(g);
    let var = f_var.min(g_var);
    let (f_low, f_high) = split(store, f, var);
    let (g_low, g_high) = split(store, g, var);
    let low = implies_from(store, known, f_low, g_low)?;
    if !low {
        return Ok(false);
    }
    let high = implies_from(store, known, f_high, g_high)?;
    if !high {
        return Ok(false);
    }
    known.insert((f, g))?;
    Ok(true)
}

/// No assignment has f at 1 and g at 0.
pub fn implies(alloc: Global, store: &Store, f: Ref, g: Ref) -> Result<bool, AllocError>
    requires f_live { IsLive store.now f }
    requires g_live { IsLive store.now g }
    ensures means { IfOk result (λ x. IsTrue x ↔ ((a : ℕ → Bool) → table store.now f a ≡ true → table store.now g a ≡ true)) }
{
    let mut known = HashSet::new(alloc);
    implies_from(store, &mut known, f, g)
}

/// An assignment of all variables at which the function is 1, if there is one.
pub fn pick(alloc: Global, store: &Store, f: Ref) -> Result<Option<Vec<bool>>, AllocError>
    requires live { IsLive store.now f }
    ensures none { IfOk result (λ o. IsNone o ↔ IsConstant store.now f false) }
    ensures length { IfOk result (λ o. IfSome o (λ bits. length bits.items ≡ store.now.vars)) }
    ensures value { IfOk result (λ o. IfSome o (λ bits. table store.now f (bit_at bits.items) ≡ true)) }
{
    if is_never(store, f) {
        return Ok(None);
    }
    let mut bits = vec![in alloc; false; store.vars() as usize]?;
    let mut rest = f;
    while store.is_constant(rest).is_none() {
        let (value, branch) = toward_one(store, rest);
        bits[store.var(rest) as usize] = value;
        rest = branch;
    }
    Ok(Some(bits))
}

/// A value of the first variable with which the function is not 0 everywhere, and the function with it.
fn toward_one(store: &Store, f: Ref) -> (bool, Ref)
    requires live { IsLive store.now f }
    requires proper { IsProper store.now f }
    ensures live { IsLive store.now result.1 }
    ensures first { first_var store.now f < first_var store.now result.1 }
    ensures table { (a : ℕ → Bool) → table store.now result.1 a ≡ table store.now f (with_at a (first_var store.now f) result.0) }
    ensures some { (IsConstant store.now f false → ⊥) → IsConstant store.now result.1 false → ⊥ }
{
    let low = store.low(f);
    let high = store.high(f);
    if is_never(store, low) {
        return (true, high);
    }
    (false, low)
}

/// The function is 0 everywhere.
pub fn is_never(store: &Store, f: Ref) -> bool
    requires { IsLive store.now f }
    ensures { IsTrue result ↔ IsConstant store.now f false }
{
    match store.is_constant(f) {
        Some(x) => !x,
        None => false,
    }
}

/// Flags the variables on which the function depends, and looks at no function that was seen.
fn flag_support(
    store: &Store,
    seen: &mut HashSet<Ref>,
    flags: &mut Vec<bool>,
    f: Ref,
) -> Result<(), AllocError>
    requires live { IsLive store.now f }
    requires length { length flags.old.items ≡ store.now.vars }
    requires seen { AreFlagged store.now seen.old flags.old.items }
    ensures length { length flags.new.items ≡ store.now.vars }
    ensures seen { AreFlagged store.now seen.new flags.new.items }
    ensures kept { (v : ℕ) → bit_at flags.old.items v ≡ true → bit_at flags.new.items v ≡ true }
    ensures only { (v : ℕ) → bit_at flags.new.items v ≡ true → (bit_at flags.old.items v ≡ true) ⊎ (depends store.now.vars (table store.now f) v ≡ true) }
    ensures all { OnOk result ((v : ℕ) → depends store.now.vars (table store.now f) v ≡ true → bit_at flags.new.items v ≡ true) }
{
    if let Some(_) = store.is_constant(f) {
        return Ok(());
    }
    if seen.contains(&f) {
        return Ok(());
    }
    let var = store.var(f);
    let low = store.low(f);
    let high = store.high(f);
    flags[var as usize] = true;
    flag_support(store, seen, flags, low)?;
    flag_support(store, seen, flags, high)?;
    seen.insert(f)?;
    Ok(())
}

/// The function's value at an assignment.
pub fn value(store: &Store, f: Ref, bits: &[bool]) -> bool
    requires live { IsLive store.now f }
    requires length { length bits.now ≡ store.now.vars }
    ensures value { result ≡ table store.now f (bit_at bits.now) }
{
    if let Some(x) = store.is_constant(f) {
        return x;
    }
    let low = store.low(f);
    let high = store.high(f);
    if bits[store.var(f) as usize] {
        return value(store, high, bits);
    }
    value(store, low, bits)
}

/// For each variable whether the function depends on it.
pub fn support(alloc: Global, store: &Store, f: Ref) -> Result<Vec<bool>, AllocError>
    requires live { IsLive store.now f }
    ensures length { IfOk result (λ flags. length flags.items ≡ store.now.vars) }
    ensures depends { IfOk result (λ flags. (v : ℕ) → v < store.now.vars → bit_at flags.items v ≡ depends store.now.vars (table store.now f) v) }
{
    let mut seen = HashSet::new(alloc);
    let mut flags = vec![in alloc; false; store.vars() as usize]?;
    flag_support(store, &mut seen, &mut flags, f)?;
    Ok(flags)
}

//! What the operations answer at functions whose tables were worked out by hand.

ghost use Rattle.std.specs.Prelude.{◌≡◌, ◌≤◌, IfOk};
ghost use Rattle.bdd_store.specs.Diagram.{IsLive, Keeps};

use crate::functions::{is_so, literal};
use bdd_ops::{and, exists, implies, not, or, pick, rename, support, value};
use bdd_store::{Ref, Store};
use std::alloc::{AllocError, Global};
use std::test::Fail;

// The exclusive or of the first two variables, 0110.
fn differ(alloc: Global, store: &mut Store) -> Result<Ref, AllocError>
    requires two { 2 ≤ store.old.vars }
    ensures live { IfOk result (λ r. IsLive store.new r) }
    ensures keeps { Keeps store.old store.new }
{
    let second = literal(store, 1)?;
    let opposite = not(alloc, store, second)?;
    store.node(0, second, opposite)
}

// Both of the first two variables, and either of them.
fn both_and_either(alloc: Global, store: &mut Store) -> Result<(Ref, Ref), AllocError>
    requires two { 2 ≤ store.old.vars }
    ensures both_live { IfOk result (λ r. IsLive store.new r.0) }
    ensures either_live { IfOk result (λ r. IsLive store.new r.1) }
    ensures keeps { Keeps store.old store.new }
{
    let x = literal(store, 0)?;
    let y = literal(store, 1)?;
    let both = and(alloc, store, x, y)?;
    let either = or(alloc, store, x, y)?;
    Ok((both, either))
}

// Two or three of three variables.
fn majority(alloc: Global, store: &mut Store) -> Result<Ref, AllocError>
    requires three { 3 ≤ store.old.vars }
    ensures live { IfOk result (λ r. IsLive store.new r) }
    ensures vars { store.new.vars ≡ store.old.vars }
{
    let (both, either) = both_and_either(alloc, store)?;
    let z = literal(store, 2)?;
    let with_z = and(alloc, store, either, z)?;
    or(alloc, store, both, with_z)
}

// Whether a function and its opposite are never both true, and always one of them.
fn are_opposites_joined(alloc: Global, store: &mut Store) -> Result<bool, AllocError>
    requires two { 2 ≤ store.old.vars }
{
    let f = differ(alloc, store)?;
    let g = not(alloc, store, f)?;
    let both = and(alloc, store, f, g)?;
    let either = or(alloc, store, f, g)?;
    Ok(both == store.constant(false) && either == store.constant(true))
}

#[test]
fn joins_opposites(rt: HostRuntime) -> Result<(), Fail> {
    let mut store = Store::new(rt.alloc(), 2)?;
    is_so(are_opposites_joined(rt.alloc(), &mut store))
}

// How many nodes a conjunction asks for, with its result.
fn calls_of_and(alloc: Global, store: &mut Store, x: Ref, y: Ref) -> Result<(Ref, u64), AllocError>
    requires x_live { IsLive store.old x }
    requires y_live { IsLive store.old y }
    ensures keeps { Keeps store.old store.new }
{
    let before = store.calls();
    let both = and(alloc, store, x, y)?;
    Ok((both, store.calls().saturating_sub(before)))
}

// Whether three conjunctions have one result, of which the second asks for no more nodes than the first, and the third for none.
fn is_recalled(alloc: Global, store: &mut Store, x: Ref, y: Ref) -> Result<bool, AllocError>
    requires x_live { IsLive store.old x }
    requires y_live { IsLive store.old y }
{
    let (first, made) = calls_of_and(alloc, store, x, y)?;
    let (again, most) = calls_of_and(alloc, store, x, y)?;
    let (last, none) = calls_of_and(alloc, store, x, y)?;
    Ok(again == first && last == first && most <= made && none == 0)
}

fn is_result_recalled(alloc: Global, store: &mut Store) -> Result<bool, AllocError>
    requires two { 2 ≤ store.old.vars }
{
    let x = literal(store, 0)?;
    let y = literal(store, 1)?;
    is_recalled(alloc, store, x, y)
}

// A result is kept where there is room: then a call asks for no node. Where a growth was refused the next call finds room.
#[test]
fn recalls_a_result(rt: HostRuntime) -> Result<(), Fail> {
    let mut store = Store::new(rt.alloc(), 2)?;
    is_so(is_result_recalled(rt.alloc(), &mut store))
}

fn is_variable_taken_out(alloc: Global, store: &mut Store) -> Result<bool, AllocError>
    requires two { 2 ≤ store.old.vars }
{
    let f = differ(alloc, store)?;
    let count = store.count(&[f])?;
    let some = exists(alloc, store, f, 1)?;
    Ok(count == 3 && some == store.constant(true))
}

#[test]
fn takes_a_variable_out(rt: HostRuntime) -> Result<(), Fail> {
    let mut store = Store::new(rt.alloc(), 2)?;
    is_so(is_variable_taken_out(rt.alloc(), &mut store))
}

fn is_variable_moved(alloc: Global, store: &mut Store) -> Result<bool, AllocError>
    requires two { 2 ≤ store.old.vars }
{
    let second = literal(store, 1)?;
    let moved = rename(alloc, store, second)?;
    Ok(moved == literal(store, 0)?)
}

#[test]
fn moves_a_variable_forward(rt: HostRuntime) -> Result<(), Fail> {
    let mut store = Store::new(rt.alloc(), 2)?;
    is_so(is_variable_moved(rt.alloc(), &mut store))
}

fn is_node_made(store: &mut Store) -> Result<bool, AllocError>
    requires two { 2 ≤ store.old.vars }
{
    store.reserve(1)?;
    Ok(literal(store, 1).is_ok())
}

#[test]
fn makes_a_node_for_which_there_is_room(rt: HostRuntime) -> Result<(), Fail> {
    let mut store = Store::new(rt.alloc(), 2)?;
    is_so(is_node_made(&mut store))
}

// A new node is refused where as many are held as may be, and one that is there is found.
fn is_node_refused(store: &mut Store) -> Result<bool, AllocError>
    requires two { 2 ≤ store.old.vars }
{
    store.hold_at_most(1);
    let one = literal(store, 0)?;
    let is_refused = literal(store, 1).is_err();
    let is_found = literal(store, 0)? == one;
    store.hold_at_most(2);
    Ok(is_refused && is_found && literal(store, 1).is_ok())
}

#[test]
fn refuses_a_node_beyond_those_that_may_be_held(rt: HostRuntime) -> Result<(), Fail> {
    let mut store = Store::new(rt.alloc(), 2)?;
    is_so(is_node_refused(&mut store))
}

// Whether a function implies itself and not the other one.
fn is_implied(alloc: Global, store: &Store, f: Ref, other: Ref) -> Result<bool, AllocError>
    requires f_live { IsLive store.now f }
    requires other_live { IsLive store.now other }
{
    let itself = implies(alloc, store, f, f)?;
    Ok(itself && !implies(alloc, store, f, other)?)
}

// Whether an assignment is found for a function, and none for the one that is never true.
fn is_picked(alloc: Global, store: &Store, f: Ref) -> Result<bool, AllocError>
    requires { IsLive store.now f }
{
    let some = pick(alloc, store, f)?.is_some();
    Ok(some && pick(alloc, store, store.constant(false))?.is_none())
}

// Whether this is what a function depends on, of two variables.
fn depends(alloc: Global, store: &Store, f: Ref, on: [bool; 2]) -> Result<bool, AllocError>
    requires { IsLive store.now f }
{
    Ok(support(alloc, store, f)?.as_slice() == on.as_slice())
}

fn are_told(alloc: Global, store: &Store, f: Ref, second: Ref) -> Result<bool, AllocError>
    requires f_live { IsLive store.now f }
    requires second_live { IsLive store.now second }
{
    let is_implied = is_implied(alloc, store, f, second)?;
    let is_picked = is_picked(alloc, store, f)?;
    let on_both = depends(alloc, store, f, [true, true])?;
    let on_second = depends(alloc, store, second, [false, true])?;
    Ok(is_implied && is_picked && on_both && on_second)
}

fn are_asked(alloc: Global, store: &mut Store) -> Result<bool, AllocError>
    requires two { 2 ≤ store.old.vars }
{
    let second = literal(store, 1)?;
    let f = differ(alloc, store)?;
    are_told(alloc, store, f, second)
}

#[test]
fn asks_of_functions(rt: HostRuntime) -> Result<(), Fail> {
    let mut store = Store::new(rt.alloc(), 2)?;
    is_so(are_asked(rt.alloc(), &mut store))
}

// Where two or three of three variables are true.
const MAJORITY: &[([bool; 3], bool)] = &[
    ([false, false, false], false),
    ([false, false, true], false),
    ([false, true, false], false),
    ([false, true, true], true),
    ([true, false, false], false),
    ([true, false, true], true),
    ([true, true, false], true),
    ([true, true, true], true),
];

// Whether a function of as many variables has this value there.
fn has_value(store: &Store, f: Ref, bits: &[bool], want: bool) -> bool
    requires { IsLive store.now f }
{
    bits.len() == store.vars() as usize && value(store, f, bits) == want
}

// Whether a function has these values.
fn has_values(store: &Store, f: Ref, rows: &[([bool; 3], bool)]) -> bool
    requires { IsLive store.now f }
{
    for (bits, want) in rows {
        if !has_value(store, f, bits.as_slice(), *want) {
            return false;
        }
    }
    true
}

fn is_majority_taken(alloc: Global, store: &mut Store) -> Result<bool, AllocError>
    requires three { 3 ≤ store.old.vars }
{
    let f = majority(alloc, store)?;
    let count = store.count(&[f])?;
    Ok(count == 4 && has_values(store, f, MAJORITY))
}

#[test]
fn takes_a_majority(rt: HostRuntime) -> Result<(), Fail> {
    let mut store = Store::new(rt.alloc(), 3)?;
    is_so(is_majority_taken(rt.alloc(), &mut store))
}

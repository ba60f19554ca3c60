//! That texts of many instances take little memory, and that one pass finds their sizes, so that no round is made; and the
//! limits, on types and modules written by hand.

use crate::texts::tree;
use smv_core::Refusal;
use smv_core::tree::{Text, Top};
use smv_size::modules::{ModuleSize, module_names, module_texts};
use smv_size::pass::one_pass;
use smv_size::rounds::module_sizes;
use smv_size::types::{families_of, is_wide, type_sizes};
use std::alloc::{AllocError, Global};
use std::test::Fail;

// Module 0 has one signal, and each other one has two instances of the module before it. They stand in this order.
fn doubling(alloc: Global, order: &[u8]) -> Result<String, AllocError> {
    let mut text = String::new(alloc);
    for name in order {
        if *name == 0 {
            text.push_str("module m0() { a : boolean; } ")?;
        } else {
            let before = *name - 1;
            text.push_str(&format!(in alloc; "module m{name}() {{ a, b : m{before}(); }} ")?)?;
        }
    }
    Ok(text)
}

// The size of the last module.
fn last_size(alloc: Global, text: &Text) -> Result<Option<ModuleSize>, AllocError> {
    let tops = text.tops.as_slice();
    let types = type_sizes(alloc, tops)?;
    let names = module_names(alloc, tops)?;
    let sizes = module_sizes(alloc, tops, &types, &names)?;
    Ok(sizes.as_slice().last().copied())
}

// The size of the first module, after one pass.
fn first_size(alloc: Global, text: &Text) -> Result<Option<ModuleSize>, AllocError> {
    let tops = text.tops.as_slice();
    let types = type_sizes(alloc, tops)?;
    let names = module_names(alloc, tops)?;
    let texts = module_texts(alloc, tops)?;
    let sizes = one_pass(alloc, texts.as_slice(), &types, &names)?;
    Ok(sizes.as_slice().first().copied())
}

// So many modules, each behind that of its instances or each before it.
fn upward(alloc: Global, count: u8, down: bool) -> Result<Vec<u8>, AllocError> {
    let mut order = Vec::new(alloc);
    for place in 0..count {
        order.push(if down { count - 1 - place } else { place })?;
    }
    Ok(order)
}

// The text of so many modules, in one order or in the other.
fn modules(alloc: Global, count: u8, down: bool) -> Result<Text, Refusal> {
    let text = doubling(alloc, &upward(alloc, count, down)?)?;
    tree(alloc, text.as_str())
}

fn has_things(size: Option<ModuleSize>, count: usize) -> bool {
    match size {
        Some(size) => size.things.count == count,
        None => false,
    }
}

// Whether the last of so many modules has this many things, and so has the first of them where they stand the other way round.
fn are_counted(alloc: Global, modules_there: u8, count: usize) -> Result<bool, Refusal> {
    let last = last_size(alloc, &modules(alloc, modules_there, false)?)?;
    let first = first_size(alloc, &modules(alloc, modules_there, true)?)?;
    Ok(has_things(last, count) && has_things(first, count))
}

// How many modules there are, and how many things the largest has.
const COUNTS: &[(u8, usize)] = &[(1, 1), (3, 10), (200, 4097)];

// Fails with how many modules there are where another number is told.
fn all_are_counted(alloc: Global, rows: &[(u8, usize)]) -> Result<(), Fail> {
    for (modules, count) in rows {
        if !are_counted(alloc, *modules, *count)? {
            return Err(Fail::new(*modules));
        }
    }
    Ok(())
}

#[test]
fn instances_are_counted_with_what_is_in_them(rt: HostRuntime) -> Result<(), Fail> {
    all_are_counted(rt.alloc(), COUNTS)
}

// Whether the type that a text names is wide.
fn names_a_wide_type(alloc: Global, text: &str) -> Result<bool, Refusal> {
    let tree = tree(alloc, text)?;
    let types = type_sizes(alloc, tree.tops.as_slice())?;
    match tree.tops.as_slice() {
        [Top::Alias { of, .. }] => Ok(is_wide(families_of(of, &types))),
        _ => Ok(false),
    }
}

const TYPES: &[(&'static str, bool)] = &[
    ("typedef t array 0..127 of array boolean of boolean;", false),
    ("typedef t array 0..128 of array boolean of boolean;", true),
];

// Fails with the first text whose type is told otherwise.
fn all_are_told(alloc: Global, rows: &[(&'static str, bool)]) -> Result<(), Fail> {
    for (text, wide) in rows {
        if names_a_wide_type(alloc, text)? != *wide {
            return Err(Fail::new(*text));
        }
    }
    Ok(())
}

#[test]
fn a_family_has_at_most_256_values(rt: HostRuntime) -> Result<(), Fail> {
    all_are_told(rt.alloc(), TYPES)
}

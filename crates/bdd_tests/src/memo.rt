//! That results are kept where there is memory, through several growths.

ghost use Rattle.std.specs.Prelude.{◌≤◌};

use crate::functions::{is_so, literal};
use bdd_store::{Ref, Store};
use memo_table::Memo;
use std::alloc::{AllocError, Global};
use std::test::Fail;

// The first variables of a store.
fn literals(alloc: Global, store: &mut Store, n: u32) -> Result<Vec<Ref>, AllocError>
    requires { n ≤ store.old.vars }
{
    let mut all = Vec::new(alloc);
    for var in 0..n {
        all.push(literal(store, var)?)?;
    }
    Ok(all)
}

// Whether nothing is kept of two operands; then the second is kept.
fn is_new(memo: &mut Memo, first: Ref, second: Ref) -> Result<bool, AllocError> {
    let none = memo.get(first, second).is_none();
    memo.insert(first, second, second)?;
    Ok(none)
}

// Whether the second of two operands is kept, and then the first, which is put in its place.
fn is_found(memo: &mut Memo, first: Ref, second: Ref) -> Result<bool, AllocError> {
    let is_kept = memo.get(first, second) == Some(second);
    memo.insert(first, second, first)?;
    Ok(is_kept && memo.get(first, second) == Some(first))
}

// Whether each two operands are new.
fn are_new(memo: &mut Memo, all: &[Ref]) -> Result<bool, AllocError> {
    for first in all {
        for second in all {
            if !is_new(memo, *first, *second)? {
                return Ok(false);
            }
        }
    }
    Ok(true)
}

// Whether what is kept of each two operands is found.
fn are_found(memo: &mut Memo, all: &[Ref]) -> Result<bool, AllocError> {
    for first in all {
        for second in all {
            if !is_found(memo, *first, *second)? {
                return Ok(false);
            }
        }
    }
    Ok(true)
}

fn is_each_found(alloc: Global, all: &[Ref]) -> Result<bool, AllocError> {
    let mut memo = Memo::new(alloc);
    let are_new = are_new(&mut memo, all)?;
    Ok(are_new && are_found(&mut memo, all)?)
}

#[test]
fn finds_each_of_many(rt: HostRuntime) -> Result<(), Fail> {
    let mut store = Store::new(rt.alloc(), 20)?;
    let all = literals(rt.alloc(), &mut store, 20)?;
    is_so(is_each_found(rt.alloc(), all.as_slice()))
}

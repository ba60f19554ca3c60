// The lists of what cells have at their indexes.
ghost use Rattle.std.specs.Prelude.{◌≡◌, ◌+◌, ◌-◌, ◌++◌, map, Some, IfOk, OnOk};
ghost use Rattle.smv_core.specs.Assignments.{computed};
ghost use Rattle.smv_core.specs.Values.{numbers_from};
ghost use Rattle.law_designs.specs.Loops.{at_index};
ghost use Rattle.smv_loops.specs.Order as spec;
ghost use Rattle.smv_loops.specs.Order.{all_begun, begun, lists_of};

use smv_core::flat::Simple;
use std::alloc::{AllocError, Global};

/// Each list of what a cell may have at indexes of these types.
pub(crate) fn every_way(alloc: Global, over: &[Simple]) -> Result<Vec<Vec<Option<u8>>>, AllocError>
    ensures { IfOk result (λ lists. lists_of lists.items ≡ spec.every_way over.now) }
{
    match over {
        [] => {
            let mut lists = Vec::new(alloc);
            lists.push(Vec::new(alloc))?;
            Ok(lists)
        }
        [first, more @ ..] => {
            let rest = every_way(alloc, more)?;
            let choices = choices(alloc, *first)?;
            begin_all(alloc, choices.as_slice(), rest.as_slice())
        }
    }
}

// What a cell may have at an index of this type: each number of a range, and nothing for another type.
fn choices(alloc: Global, over: Simple) -> Result<Vec<Option<u8>>, AllocError>
    ensures { IfOk result (λ choices. choices.items ≡ at_index over computed) }
{
    match over {
        Simple::Range { low, high } => numbers(alloc, low, high),
        Simple::Enum { .. } => nothing(alloc),
        Simple::Set { .. } => nothing(alloc),
    }
}

fn numbers(alloc: Global, low: u8, high: u8) -> Result<Vec<Option<u8>>, AllocError>
    ensures { IfOk result (λ numbers. numbers.items ≡ map Some (numbers_from low (high + 1 - low))) }
{
    let mut numbers = Vec::new(alloc);
    for k in usize::from(low)..usize::from(high) + 1 {
        numbers.push(Some(k as u8))?;
    }
    Ok(numbers)
}

fn nothing(alloc: Global) -> Result<Vec<Option<u8>>, AllocError>
    ensures { IfOk result (λ nothing. nothing.items ≡ spec.nothing) }
{
    let mut nothing = Vec::new(alloc);
    nothing.push(None)?;
    Ok(nothing)
}

// Each of these, before each of these lists.
fn begin_all(
    alloc: Global,
    firsts: &[Option<u8>],
    rest: &[Vec<Option<u8>>],
) -> Result<Vec<Vec<Option<u8>>>, AllocError>
    ensures { IfOk result (λ lists. lists_of lists.items ≡ all_begun firsts.now (lists_of rest.now)) }
{
    let mut lists = Vec::new(alloc);
    for first in firsts {
        begin(alloc, *first, rest, &mut lists)?;
    }
    Ok(lists)
}

// This before each of these lists.
fn begin(
    alloc: Global,
    first: Option<u8>,
    rest: &[Vec<Option<u8>>],
    out: &mut Vec<Vec<Option<u8>>>,
) -> Result<(), AllocError>
    ensures { OnOk result (lists_of out.new.items ≡ lists_of out.old.items ++ begun first (lists_of rest.now)) }
{
    for list in rest {
        let mut longer = Vec::new(alloc);
        longer.push(first)?;
        longer.extend_from_slice(list.as_slice())?;
        out.push(longer)?;
    }
    Ok(())
}

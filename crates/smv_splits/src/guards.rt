// The guards of leaves.
ghost use Rattle.std.specs.Prelude.{◌≡◌, ◌++◌, map, flat_map, unwrap_or, IfOk, OnOk};
ghost use Rattle.law_splits.specs.Leaves.{with_name};
ghost use Rattle.smv_splits.specs.Renaming.{number_by};
ghost use Rattle.smv_splits.specs.Links as spec;
ghost use Rattle.smv_splits.specs.Links.{link_held, guard_by};

use crate::chains::Link;
use crate::expressions::renamed_expression;
use crate::numbers::Numbers;
use crate::params::{add_new, number};
use crate::standing::standing;
use smv_core::flat::{FlatPair, FlatSplit, Guard, Param};
use smv_references::brackets::named;
use std::alloc::{AllocError, Global};

// The number of the parameter for which a variable stands, and 0 where there is none, which is a fault.
fn number_given(place: Option<usize>) -> Result<u16, AllocError>
    ensures { IfOk result (λ number. number ≡ unwrap_or place 0) }
{
    match place {
        Some(place) => {
            let number = number(place)?;
            Ok(number)
        }
        None => Ok(0),
    }
}

// The numbers of the parameters for which some variables stand.
#[tactic(auto, using(smv_mentions::proofs::Notes::noting))]
fn all_given(alloc: Global, places: &[Option<usize>]) -> Result<Vec<u16>, AllocError>
    ensures { IfOk result (λ given. given.items ≡ map (λ place. unwrap_or place 0) places.now) }
{
    let mut given = Vec::new(alloc);
    for place in places {
        let number = number_given(*place)?;
        given.push(number)?;
    }
    Ok(given)
}

// The numbers of the parameters for which the variables around a split stand.
fn numbers_given(alloc: Global, split: &FlatSplit) -> Result<Vec<u16>, AllocError>
    ensures { IfOk result (λ given. given.items ≡ spec.given split.now) }
{
    let places = standing(alloc, split)?;
    let given = all_given(alloc, &places)?;
    Ok(given)
}

// The guard of an equation for one of the new parameters.
fn guard(alloc: Global, numbers: Numbers, pair: &FlatPair, p: &Param) -> Result<Guard, AllocError>
    ensures { IfOk result (λ guard. guard ≡ guard_by (number_by numbers.entry) pair.now p.now) }
{
    let expr = renamed_expression(&pair.left, numbers, alloc)?;
    Ok(Guard {
        expr,
        var: p.var,
        over: p.over,
        at: pair.at,
    })
}

// The guard of an equation, where its right is one of the new parameters, more.
#[tactic(auto, using(smv_mentions::proofs::Notes::noting))]
fn add_guard(
    alloc: Global,
    out: &mut Vec<Guard>,
    numbers: Numbers,
    new: &[Param],
    pair: &FlatPair,
) -> Result<(), AllocError>
    ensures { OnOk result (out.new.items ≡ out.old.items ++ map (guard_by (number_by numbers.entry) pair.now) (with_name new.now pair.now.right)) }
{
    match named(new, &pair.right) {
        Some(p) => {
            let guard = guard(alloc, numbers, pair, p)?;
            out.push(guard)?;
            Ok(())
        }
        None => Ok(()),
    }
}

// The guards of these equations more.
#[tactic(auto, using(smv_mentions::proofs::Notes::noting))]
fn add_pairs(
    alloc: Global,
    out: &mut Vec<Guard>,
    numbers: Numbers,
    new: &[Param],
    pairs: &[FlatPair],
) -> Result<(), AllocError>
    ensures { OnOk result (out.new.items ≡ out.old.items ++ flat_map (λ pair. map (guard_by (number_by numbers.entry) pair) (with_name new.now pair.right)) pairs.now) }
{
    for pair in pairs {
        add_guard(alloc, out, numbers, new, pair)?;
    }
    Ok(())
}

// The guards of a split in a leaf with so many parameters, more.
fn add_guards(alloc: Global, out: &mut Vec<Guard>, link: Link, count: u16) -> Result<(), AllocError>
    ensures { OnOk result (out.new.items ≡ out.old.items ++ spec.guards_at count (link_held link.entry)) }
{
    let given = numbers_given(alloc, link.split)?;
    let numbers = Numbers {
        given: &given,
        count,
    };
    let mut new = Vec::new(alloc);
    add_new(alloc, &mut new, link.split, link.first)?;
    add_pairs(alloc, out, numbers, &new, link.split.pairs.as_slice())?;
    Ok(())
}

/// The guards of a chain of splits in a leaf with so many parameters.
#[tactic(auto, using(smv_mentions::proofs::Notes::noting))]
pub(crate) fn all_guards(
    alloc: Global,
    links: &[Link],
    count: usize,
) -> Result<Vec<Guard>, AllocError>
    ensures { IfOk result (λ guards. guards.items ≡ flat_map (spec.guards_at count) (map link_held links.now)) }
{
    let count = number(count)?;
    let mut guards = Vec::new(alloc);
    for link in links {
        add_guards(alloc, &mut guards, *link, count)?;
    }
    Ok(guards)
}

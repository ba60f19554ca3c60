// Chains of splits.
ghost use Rattle.std.specs.Prelude.{◌≡◌, map, find, option_and_then, option_copied, slice_get, length, OnOk};
ghost use Rattle.std.specs.Str.{bytes_eq};
ghost use Rattle.law_splits.specs.Leaves.{named_by};
ghost use Rattle.smv_splits.specs.Links.{held, further, ended};

use crate::params::add_new;
use name_index::NameIndex;
use smv_core::flat::{Design, FlatSplit, Param};
use smv_core::name::Name;
use std::alloc::{AllocError, Global};

/// A split, and the number of the first parameter that it adds.
#[derive(Clone, Copy)]
pub struct Link<'a> {
    pub split: &'a FlatSplit,
    pub first: usize,
}

/// A chain of splits so far: the parameters and the name at its end, and its splits.
#[derive(Drop)]
pub struct Chain<'a> {
    pub params: Vec<Param>,
    pub name: &'a Name,
    pub links: Vec<Link<'a>>,
}

// The split of this number, if there is one.
fn split_at(design: &Design, place: Option<usize>) -> Option<&FlatSplit>
    ensures { option_copied result ≡ option_and_then (slice_get design.now.splits) place }
{
    match place {
        Some(place) => design.splits.as_slice().get(place),
        None => None,
    }
}

// The split of what has a name: the first that is of it.
fn split_of<'a>(design: &'a Design, named: &NameIndex, name: &Name) -> Option<&'a FlatSplit>
    requires { named.now ≡ map (λ split. named_by split.of) design.now.splits }
    ensures { option_copied result ≡ find (λ split. bytes_eq (named_by split.of) name.now) design.now.splits }
{
    split_at(design, named.find(name))
}

// One split more.
fn add<'a>(alloc: Global, chain: &mut Chain<'a>, split: &'a FlatSplit) -> Result<(), AllocError>
    ensures { OnOk result (held chain.new ≡ further (held chain.old) split.now) }
{
    let first = chain.params.len();
    add_new(alloc, &mut chain.params, split, first)?;
    chain.links.push(Link { split, first })?;
    chain.name = &split.name;
    Ok(())
}

/// Follows a chain to its end.
pub fn follow<'a>(
    alloc: Global,
    design: &'a Design,
    named: &NameIndex,
    chain: &mut Chain<'a>,
) -> Result<(), AllocError>
    requires { named.now ≡ map (λ split. named_by split.of) design.now.splits }
    ensures { OnOk result (held chain.new ≡ ended design.now (length design.now.splits) (held chain.old)) }
{
    for _turn in 0..design.splits.len() {
        match split_of(design, named, chain.name) {
            Some(split) => add(alloc, chain, split)?,
            None => return Ok(()),
        }
    }
    Ok(())
}

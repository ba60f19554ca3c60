// A unit that is to be decided at given sizes.
ghost use Rattle.std.specs.Prelude.{◌≡◌, ◌≤◌, [], take, length, IfOk};
ghost use Rattle.law_obligations.specs.Outlines.{names_of, unit_in};
ghost use Rattle.law_obligations.specs.Soundness.{params_of};
ghost use Rattle.law_concrete.specs.Sizes as given;
ghost use Rattle.smv_concrete.specs.Subjects as spec;

use smv_cone::parts::indexes_of;
use smv_copies::copy_name;
use smv_core::abstract_type::{AbsType, Rest};
use smv_core::flat::{Choice, Def, Design, Leaf, Param, SetInfo, Timed, Unit};
use smv_core::{Name, Seq};
use std::alloc::{AllocError, Global};

/// A unit that is to be decided at given sizes, one for each set type without a size of its own: its design with the units and the abstract forms of the set types, the unit as a leaf that is not split and that uses nothing, and the
/// base definition of each family.
#[derive(Clone, Copy)]
pub struct Subject<'a> {
    pub design: &'a Design,
    pub sizes: &'a [u16],
    pub units: &'a [Unit],
    pub types: &'a [AbsType],
    pub leaf: &'a Leaf,
    pub choice: &'a Choice,
    pub timed: &'a Timed,
    pub table: &'a [Option<&'a Def>],
}

/// How many set types have no size of their own.
pub fn undeclared(sets: &[SetInfo]) -> usize
    ensures count { result ≡ given.undeclared sets.now }
    ensures few { result ≤ length sets.now }
{
    match sets {
        [] => 0,
        [info, more @ ..] => match info.size {
            Some(_) => undeclared(more),
            None => undeclared(more) + 1,
        },
    }
}

// The size of the next set type, and the sizes behind it.
fn next_size(own: Option<u16>, sizes: &[u16]) -> (u16, &[u16])
    ensures size { result.0 ≡ given.next_size own sizes.now }
    ensures rest { result.1.now ≡ given.given_after own sizes.now }
{
    match own {
        Some(size) => (size, sizes),
        None => match sizes {
            [] => (0, sizes),
            [first, rest @ ..] => (*first, rest),
        },
    }
}

/// The abstract form of each set type at these sizes.
pub fn whole_types(
    alloc: Global,
    sets: &[SetInfo],
    sizes: &[u16],
) -> Result<Seq<AbsType>, AllocError>
    ensures { IfOk result (λ types. types ≡ spec.whole_types sets.now sizes.now) }
{
    let mut types = Vec::new(alloc);
    let mut left = sizes;
    for place in 0..sets.len() {
        let (size, rest) = next_size(sets[place].size, left);
        types.push(AbsType {
            named: size,
            rest: Rest::None,
        })?;
        left = rest;
    }
    Ok(Seq::from_vec(types))
}

/// How many parameters a unit has of its own.
pub fn own_count(design: &Design, unit: Unit) -> usize
    ensures { result ≡ length (params_of (names_of design.now) (unit_in design.now unit)) }
{
    match unit {
        Unit::Map { def } => match design.defs.as_slice().get(usize::from(def)) {
            Some(def) => indexes_of(design, def.family).len(),
            None => 0,
        },
        Unit::Claim { claim } => match design.claims.as_slice().get(usize::from(claim)) {
            Some(claim) => claim.params.as_slice().len(),
            None => 0,
        },
    }
}

// These parameters again.
fn copy_params(alloc: Global, params: &[Param]) -> Result<Vec<Param>, AllocError>
    ensures { IfOk result (λ copies. copies.items ≡ params.now) }
{
    let mut copies = Vec::new(alloc);
    for p in params {
        let name = copy_name(alloc, &p.name)?;
        copies.push(Param {
            var: p.var,
            over: p.over,
            name,
        })?;
    }
    Ok(copies)
}

/// A leaf without what splits add: so many parameters from the front, no name and no guards.
pub fn without_splits(alloc: Global, leaf: &Leaf, count: usize) -> Result<Leaf, AllocError>
    ensures { IfOk result (λ lone. lone ≡ record { unit = leaf.now.unit; name = []; params = take count leaf.now.params; guards = [] }) }
{
    let all = leaf.params.as_slice();
    let params = copy_params(alloc, &all[..count.min(all.len())])?;
    Ok(Leaf {
        unit: leaf.unit,
        name: Name::from_vec(Vec::new(alloc)),
        params: Seq::from_vec(params),
        guards: Seq::new(alloc),
    })
}

/// Nothing is used.
pub fn nothing_used(alloc: Global) -> Choice
    ensures { result ≡ spec.nothing_used }
{
    Choice {
        picks: Seq::new(alloc),
        claims: Seq::new(alloc),
        itself: false,
        keeps: Seq::new(alloc),
    }
}

/// So there are no times of uses.
pub fn no_times(alloc: Global) -> Timed
    ensures { result ≡ spec.no_times }
{
    Timed {
        picks: Seq::new(alloc),
        claims: Seq::new(alloc),
    }
}

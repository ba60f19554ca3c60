// The parameters of units and those that splits add.
ghost use Rattle.std.specs.Prelude.{◌≡◌, ◌++◌, ◌+◌, map, slice_get, IfOk, OnOk};
ghost use Rattle.law_obligations.specs.Soundness.{over_of};
ghost use Rattle.law_obligations.specs.Outlines.{unit_in};
ghost use Rattle.law_splits.specs.Leaves as spec;
ghost use Rattle.law_splits.specs.Leaves.{numbered, nameless, bound_as};
ghost use Rattle.law_splits.specs.Chains.{types_of, new_types, unit_types};

use crate::names::no_name;
use smv_copies::copy_name;
use smv_core::flat::{Design, FlatSplit, Param, Simple, Unit};
use smv_core::tree::Word;
use smv_references::brackets::named;
use std::alloc::{AllocError, Global};

/// A number as that of a parameter. Where it does not fit, no memory is said to be left.
pub fn number(place: usize) -> Result<u16, AllocError>
    ensures { IfOk result (λ number. number ≡ place) }
{
    match u16::try_from(place) {
        Ok(number) => Ok(number),
        Err(_) => Err(AllocError),
    }
}

// The number of the parameter that stands so far behind another.
fn number_behind(first: usize, index: usize) -> Result<u16, AllocError>
    ensures { IfOk result (λ number. number ≡ first + index) }
{
    match first.checked_add(index) {
        Some(place) => {
            let number = number(place)?;
            Ok(number)
        }
        None => Err(AllocError),
    }
}

// Parameters without names over these types.
#[tactic(auto, using(smv_mentions::proofs::Notes::noting))]
fn nameless_params(alloc: Global, types: &[Simple]) -> Result<Vec<Param>, AllocError>
    ensures { IfOk result (λ params. params.items ≡ numbered 0 (map nameless types.now)) }
{
    let mut params = Vec::new(alloc);
    for (index, over) in types.iter().enumerate() {
        let var = number(index)?;
        params.push(Param {
            var,
            over: *over,
            name: no_name(alloc),
        })?;
    }
    Ok(params)
}

// These parameters again.
fn copy_params(alloc: Global, params: &[Param]) -> Result<Vec<Param>, AllocError>
    ensures { IfOk result (λ copies. copies.items ≡ params.now) }
{
    let mut copies = Vec::new(alloc);
    for p in params {
        let name = copy_name(alloc, &p.name)?;
        copies.push(Param {
            var: p.var,
            over: p.over,
            name,
        })?;
    }
    Ok(copies)
}

// The types of the indexes of a family, where there is one.
fn index_types(design: &Design, family: u16) -> &[Simple]
    ensures { result.now ≡ over_of (slice_get design.now.families family) }
{
    match design.families.as_slice().get(usize::from(family)) {
        Some(family) => family.over.as_slice(),
        None => &[],
    }
}

/// The parameters of a unit: of a map the indexes of its family, of a claim the variables around it.
pub(crate) fn own_params(
    alloc: Global,
    design: &Design,
    unit: Unit,
) -> Result<Vec<Param>, AllocError>
    ensures { IfOk result (λ params. params.items ≡ spec.own_params design.now (unit_in design.now unit)) }
{
    match unit {
        Unit::Map { def } => match design.defs.as_slice().get(usize::from(def)) {
            Some(def) => {
                let params = nameless_params(alloc, index_types(design, def.family))?;
                Ok(params)
            }
            None => Ok(Vec::new(alloc)),
        },
        Unit::Claim { claim } => match design.claims.as_slice().get(usize::from(claim)) {
            Some(claim) => {
                let params = copy_params(alloc, claim.params.as_slice())?;
                Ok(params)
            }
            None => Ok(Vec::new(alloc)),
        },
    }
}

// The types of these parameters.
fn types(alloc: Global, params: &[Param]) -> Result<Vec<Simple>, AllocError>
    ensures { IfOk result (λ types. types.items ≡ types_of params.now) }
{
    params.iter().map(|p| p.over).collect(alloc)
}

/// The types of a unit's parameters.
pub fn own_types(alloc: Global, design: &Design, unit: Unit) -> Result<Vec<Simple>, AllocError>
    ensures { IfOk result (λ types. types.items ≡ unit_types design.now (unit_in design.now unit)) }
{
    match unit {
        Unit::Map { def } => match design.defs.as_slice().get(usize::from(def)) {
            Some(def) => {
                let mut over = Vec::new(alloc);
                over.extend_from_slice(index_types(design, def.family))?;
                Ok(over)
            }
            None => Ok(Vec::new(alloc)),
        },
        Unit::Claim { claim } => match design.claims.as_slice().get(usize::from(claim)) {
            Some(claim) => {
                let over = types(alloc, claim.params.as_slice())?;
                Ok(over)
            }
            None => Ok(Vec::new(alloc)),
        },
    }
}

// The type of a new parameter. Where no variable has its name, which is a fault, it is one that no variable has.
fn new_type(bound: &[Param], word: &Word) -> Simple
    ensures { result ≡ (bound_as bound.now word.now).over }
{
    match named(bound, word) {
        Some(p) => p.over,
        None => Simple::Enum { list: 0 },
    }
}

/// The types of the parameters that a split adds, behind these.
#[tactic(auto, using(smv_mentions::proofs::Notes::noting))]
pub fn add_types(out: &mut Vec<Simple>, split: &FlatSplit) -> Result<(), AllocError>
    ensures { OnOk result (out.new.items ≡ out.old.items ++ new_types split.now) }
{
    for word in split.vars.as_slice() {
        out.push(new_type(split.bound.as_slice(), word))?;
    }
    Ok(())
}

// A new parameter with this number.
fn new_param(alloc: Global, bound: &[Param], word: &Word, var: u16) -> Result<Param, AllocError>
    ensures { IfOk result (λ p. p ≡ record (bound_as bound.now word.now) { var = var }) }
{
    let over = new_type(bound, word);
    let name = copy_name(alloc, &word.name)?;
    Ok(Param { var, over, name })
}

/// The parameters that a split adds, numbered from this number on, behind these.
#[tactic(auto, using(smv_mentions::proofs::Notes::noting))]
pub(crate) fn add_new(
    alloc: Global,
    out: &mut Vec<Param>,
    split: &FlatSplit,
    first: usize,
) -> Result<(), AllocError>
    ensures { OnOk result (out.new.items ≡ out.old.items ++ numbered first (map (bound_as split.now.bound) split.now.vars)) }
{
    for (index, word) in split.vars.as_slice().iter().enumerate() {
        let var = number_behind(first, index)?;
        let p = new_param(alloc, split.bound.as_slice(), word, var)?;
        out.push(p)?;
    }
    Ok(())
}

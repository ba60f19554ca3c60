// The first misfit of some splits.
ghost use Rattle.std.specs.Prelude.{◌≡◌, map, flat_map, not, IfOk};
ghost use Rattle.std.specs.List.{list_any};
ghost use Rattle.smv_mentions.specs.NameFaults as faults;
ghost use Rattle.smv_first_fault.specs.Firsts.{least};
ghost use Rattle.law_splits.specs.Leaves.{with_name};
ghost use Rattle.law_splits.specs.SplitFaults as spec;
ghost use Rattle.smv_splits.specs.Parts as parts;

use crate::kinds::is_of_kind;
use crate::rights::{Rights, is_in_one, make_rights};
use crate::standing::standing;
use crate::strays::stray_in;
use name_index::NameIndex;
use smv_core::flat::{Family, FlatPair, FlatSplit, Param};
use smv_core::tree::Word;
use smv_first_fault::places::{first_of, place_if};
use smv_references::again::first_name_again;
use smv_references::brackets::{add_words, first_unbound, named};
use std::alloc::{AllocError, Global};

// The first name of its brackets, and then of those of what is split, that is not bound.
fn first_not_bound(split: &FlatSplit) -> Option<u32>
    ensures { result ≡ least (spec.unbound split.now) }
{
    let bound = split.bound.as_slice();
    let new = first_unbound(bound, split.vars.as_slice());
    let old = first_unbound(bound, split.of.names.as_slice());
    first_of(new, old)
}

// The first of them that stands before.
#[tactic(auto, using(smv_references::proofs::AgainLaws::doubling))]
fn first_doubled(alloc: Global, split: &FlatSplit) -> Result<Option<u32>, AllocError>
    ensures { IfOk result (λ place. place ≡ least (spec.doubled (spec.bracketed split.now))) }
{
    let mut names = Vec::new(alloc);
    add_words(&mut names, split.vars.as_slice())?;
    add_words(&mut names, split.of.names.as_slice())?;
    let place = first_name_again(alloc, &names)?;
    Ok(place)
}

// The first new parameter that is not to the right of exactly one equation.
#[tactic(auto, using(smv_first_fault::proofs::LeastLaws::leasts))]
fn first_not_in_one(rights: &Rights, words: &[Word]) -> Option<u32>
    ensures { result ≡ least (flat_map (λ word. faults.place_if (not (parts.is_in_one rights.now.names rights.now.repeated word)) word.at) words.now) }
{
    let mut found = None;
    for word in words {
        found = first_of(found, place_if(!is_in_one(rights, word), word.at));
    }
    found
}

// The names of these words.
#[tactic(auto, using(smv_mentions::proofs::Notes::noting))]
fn names_of<'a>(alloc: Global, words: &'a [Word]) -> Result<NameIndex<'a>, AllocError>
    ensures { IfOk result (λ names. names ≡ map (λ word. word.name) words.now) }
{
    let mut names = NameIndex::new(alloc);
    for word in words {
        names.push(&word.name)?;
    }
    Ok(names)
}

// The first name to the right of an equation that is no new parameter.
#[tactic(auto, using(smv_first_fault::proofs::LeastLaws::leasts))]
fn first_not_new(new: &NameIndex, pairs: &[FlatPair]) -> Option<u32>
    ensures { result ≡ least (flat_map (parts.not_new_in new.now) pairs.now) }
{
    let mut found = None;
    for pair in pairs {
        let known = new.find(&pair.right.name).is_some();
        found = first_of(found, place_if(!known, pair.right.at));
    }
    found
}

// Whether an expression is of another kind than the variable that is to be equal to it, where there is one.
fn is_other_kind(families: &[Family], bound: &[Param], pair: &FlatPair) -> bool
    ensures { result ≡ list_any (λ p. not (spec.is_of_kind families.now bound.now p.over pair.now.left)) (with_name bound.now pair.now.right) }
{
    match named(bound, &pair.right) {
        Some(p) => !is_of_kind(families, bound, p.over, &pair.left),
        None => false,
    }
}

// The first expression of another kind.
#[tactic(auto, using(smv_first_fault::proofs::LeastLaws::leasts))]
fn first_other_kind(families: &[Family], bound: &[Param], pairs: &[FlatPair]) -> Option<u32>
    ensures { result ≡ least (flat_map (parts.other_kind_in families.now bound.now) pairs.now) }
{
    let mut found = None;
    for pair in pairs {
        let is_other = is_other_kind(families, bound, pair);
        found = first_of(found, place_if(is_other, pair.right.at));
    }
    found
}

// The first variable around the split that stands for no parameter and is read.
#[tactic(auto, using(smv_first_fault::proofs::LeastLaws::leasts))]
fn first_stray(standing: &[Option<usize>], pairs: &[FlatPair]) -> Option<u32>
    ensures { result ≡ parts.first_among (map (λ pair. parts.stray_in standing.now pair.left) pairs.now) }
{
    let mut found = None;
    for pair in pairs {
        found = first_of(found, stray_in(standing, &pair.left));
    }
    found
}

// The first misfit of the equations of a split.
fn equations_misfit(
    alloc: Global,
    families: &[Family],
    split: &FlatSplit,
) -> Result<Option<u32>, AllocError>
    ensures { IfOk result (λ place. place ≡ parts.equations_misfit families.now split.now) }
{
    let vars = split.vars.as_slice();
    let pairs = split.pairs.as_slice();
    let rights = make_rights(alloc, pairs)?;
    let new = names_of(alloc, vars)?;
    let standing = standing(alloc, split)?;
    let not_one = first_not_in_one(&rights, vars);
    let not_new = first_not_new(&new, pairs);
    let other_kind = first_other_kind(families, split.bound.as_slice(), pairs);
    let stray = first_stray(&standing, pairs);
    Ok(first_of(first_of(not_one, not_new), first_of(other_kind, stray)))
}

// The first misfit of a split.
fn misfit_of(
    alloc: Global,
    families: &[Family],
    split: &FlatSplit,
) -> Result<Option<u32>, AllocError>
    ensures { IfOk result (λ place. place ≡ least (spec.misfits families.now split.now)) }
{
    let doubled = first_doubled(alloc, split)?;
    let brackets = first_of(first_not_bound(split), doubled);
    let equations = equations_misfit(alloc, families, split)?;
    Ok(first_of(brackets, equations))
}

/// The first place of fault 24 that some splits show by themselves.
#[tactic(auto, using(smv_first_fault::proofs::LeastLaws::leasts))]
pub fn first_misfit(
    alloc: Global,
    families: &[Family],
    splits: &[FlatSplit],
) -> Result<Option<u32>, AllocError>
    ensures { IfOk result (λ place. place ≡ least (flat_map (spec.misfits families.now) splits.now)) }
{
    let mut found = None;
    for split in splits {
        let misfit = misfit_of(alloc, families, split)?;
        found = first_of(found, misfit);
    }
    Ok(found)
}

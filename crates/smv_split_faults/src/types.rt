// What a split shows of parameters of some types.
ghost use Rattle.std.specs.Prelude.{◌≡◌, ◌&&◌, not};
ghost use Rattle.std.specs.List.{list_any};
ghost use Rattle.smv_first_fault.specs.Firsts.{least};
ghost use Rattle.law_splits.specs.Leaves.{with_name};
ghost use Rattle.law_splits.specs.SplitFaults as spec;
ghost use Rattle.law_splits.specs.Chains as chains;

use smv_core::flat::{FlatSplit, Param, Simple};
use smv_core::tree::Word;
use smv_first_fault::places::{first_of, place_if};
use smv_references::brackets::{miscounted, named, same_type};

// Whether variables may be of a type.
fn is_of_variables(over: Simple) -> bool
    ensures { result ≡ spec.is_of_variables over }
{
    match over {
        Simple::Enum { .. } => false,
        Simple::Range { .. } => true,
        Simple::Set { .. } => true,
    }
}

// Whether a name is bound with another type.
fn is_other(bound: &[Param], word: &Word, over: Simple) -> bool
    ensures { result ≡ list_any (λ b. not (spec.same_type b.over over)) (with_name bound.now word.now) }
{
    match named(bound, word) {
        Some(p) => !same_type(p.over, over),
        None => false,
    }
}

// A name that is bound with another type than its parameter, where that has one.
fn other_type(bound: &[Param], word: &Word, over: &Simple) -> Option<u32>
    ensures { result ≡ least (chains.other_type bound.now word.now over.now) }
{
    let is_misfit = is_of_variables(*over) && is_other(bound, word, *over);
    place_if(is_misfit, word.at)
}

// The first of these names that is.
fn first_other_type(bound: &[Param], words: &[Word], types: &[Simple]) -> Option<u32>
    ensures { result ≡ least (chains.other_types bound.now words.now types.now) }
{
    let mut found = None;
    for place in 0..words.len().min(types.len()) {
        found = first_of(found, other_type(bound, &words[place], &types[place]));
    }
    found
}

/// The first place of what a split shows of parameters of these types: another number of names, or a name of another type.
pub(crate) fn first_shown(split: &FlatSplit, types: &[Simple]) -> Option<u32>
    ensures { result ≡ least (chains.mismatches_by split.now types.now) }
{
    let names = split.of.names.as_slice();
    first_of(
        miscounted(types.len(), names),
        first_other_type(split.bound.as_slice(), names, types),
    )
}

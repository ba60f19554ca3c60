// The names in the brackets of a reference.
ghost use Rattle.std.specs.Prelude.{◌≡◌, ◌++◌, map, flat_map, find, not, option_copied, IfOk, OnOk};
ghost use Rattle.std.specs.Str.{bytes_eq};
ghost use Rattle.smv_mentions.specs.NameFaults as faults;
ghost use Rattle.smv_first_fault.specs.Firsts.{least};
ghost use Rattle.law_splits.specs.SplitFaults as splits;
ghost use Rattle.smv_references.specs.Again.{placed, placed_words};

use crate::again::first_name_again;
use smv_core::flat::{Param, Simple};
use smv_core::name::Name;
use smv_core::tree::Word;
use smv_first_fault::places::{first_of, place_if};
use std::alloc::{AllocError, Global};

/// The first of these parameters that a word names. So few variables are bound around one place that they are looked through.
pub fn named<'a>(params: &'a [Param], word: &Word) -> Option<&'a Param>
    ensures { option_copied result ≡ find (λ p. bytes_eq p.name word.now.name) params.now }
{
    params
        .iter()
        .find(|p| p.name.as_bytes() == word.name.as_bytes())
}

/// Whether a word names one of these parameters.
fn names_one(params: &[Param], word: &Word) -> bool
    ensures { result ≡ splits.names_one params.now word.now }
{
    params
        .iter()
        .any(|p| p.name.as_bytes() == word.name.as_bytes())
}

/// The first of these names that is not bound.
#[tactic(auto, using(smv_first_fault::proofs::LeastLaws::leasts))]
pub fn first_unbound(bound: &[Param], words: &[Word]) -> Option<u32>
    ensures { result ≡ least (flat_map (λ word. faults.place_if (not (splits.names_one bound.now word)) word.at) words.now) }
{
    let mut found = None;
    for word in words {
        found = first_of(found, place_if(!names_one(bound, word), word.at));
    }
    found
}

/// These words more, each with its place.
#[tactic(auto, using(smv_mentions::proofs::Notes::noting))]
pub fn add_words<'a>(out: &mut Vec<(u32, &'a Name)>, words: &'a [Word]) -> Result<(), AllocError>
    ensures { OnOk result (map placed out.new.items ≡ map placed out.old.items ++ placed_words words.now) }
{
    for word in words {
        out.push((word.at, &word.name))?;
    }
    Ok(())
}

/// The first of these names that stands before.
#[tactic(auto, using(crate::proofs::AgainLaws::doubling))]
pub fn first_doubled(alloc: Global, words: &[Word]) -> Result<Option<u32>, AllocError>
    ensures { IfOk result (λ place. place ≡ least (splits.doubled words.now)) }
{
    let mut names = Vec::new(alloc);
    add_words(&mut names, words)?;
    first_name_again(alloc, &names)
}

/// The first name in brackets that have more or fewer names than there are parameters.
pub fn miscounted(count: usize, words: &[Word]) -> Option<u32>
    ensures { result ≡ least (splits.miscounted count words.now) }
{
    match words {
        [] => None,
        [first, ..] => place_if(words.len() != count, first.at),
    }
}

/// Whether two types are one.
pub fn same_type(a: Simple, b: Simple) -> bool
    ensures { result ≡ splits.same_type a b }
{
    match (a, b) {
        (
            Simple::Range { low, high },
            Simple::Range {
                low: other,
                high: last,
            },
        ) => { low == other && high == last }
        (Simple::Enum { list }, Simple::Enum { list: other }) => list == other,
        (Simple::Set { set }, Simple::Set { set: other }) => set == other,
        _ => false,
    }
}

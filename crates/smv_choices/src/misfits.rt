// Names of a `using` that do not fit.
ghost use Rattle.std.specs.Prelude.{◌≡◌, [], map, flat_map, not, false, slice_index_or, IfOk, OnOk};
ghost use Rattle.smv_mentions.specs.NameFaults as faults;
ghost use Rattle.smv_first_fault.specs.Firsts.{least};
ghost use Rattle.law_obligations.specs.Cases as cases;
ghost use Rattle.smv_choices.specs.Held.{AreTables};
ghost use Rattle.smv_choices.specs.Parts as parts;
ghost use Rattle.smv_choices.specs.Readings as readings;
ghost use Rattle.smv_choices.specs.Readings.{reading, pair_of};

use crate::meanings::number_of;
use crate::readings::{Proved, Reading};
use crate::tables::Tables;
use name_index::NameIndex;
use smv_core::flat::{Param, Simple};
use smv_core::tree::{Use, Word};
use smv_first_fault::places::{first_of, place_if};
use smv_references::brackets::{first_doubled, first_unbound, miscounted, named, same_type};
use std::alloc::{AllocError, Global};

// Whether a type is this set type.
fn is_set(set: u16, over: Simple) -> bool
    ensures { result ≡ cases.is_set set over }
{
    match over {
        Simple::Set { set: other } => set == other,
        Simple::Range { .. } => false,
        Simple::Enum { .. } => false,
    }
}

// Whether a word is by these brackets one of these parameters, over this set type.
fn is_param_over(set: u16, brackets: &[Word], params: &[Param], word: &Word) -> bool
    ensures { result ≡ parts.is_param_in set brackets.now params.now word.now }
{
    match brackets {
        [] => false,
        [name, more @ ..] => match params {
            [] => false,
            [p, others @ ..] => {
                name.name.as_bytes() == word.name.as_bytes() && is_set(set, p.over)
                    || is_param_over(set, more, others, word)
            }
        },
    }
}

// Whether it is one of each leaf that is proved.
fn fits(set: u16, proved: &[Proved], word: &Word) -> bool
    ensures { result ≡ parts.fits set (map pair_of proved.now) word.now }
{
    for x in proved {
        if !is_param_over(set, x.of.names.as_slice(), x.leaf.params.as_slice(), word) {
            return false;
        }
    }
    true
}

// What is known at a place.
fn fit_at(fit: &[bool], place: usize) -> bool
    ensures { result ≡ slice_index_or fit.now place false }
{
    fit.get(place).copied().unwrap_or(false)
}

// Whether a word is one of each leaf that is proved. What was found of its name is known, and what is found is noted.
fn noted_fit<'a>(
    known: &mut NameIndex<'a>,
    fit: &mut Vec<bool>,
    set: u16,
    proved: &[Proved],
    word: &'a Word,
) -> Result<bool, AllocError>
    requires { fit.old.items ≡ map (parts.fits_name set (map pair_of proved.now)) known.old }
    ensures fits { IfOk result (λ is_fit. is_fit ≡ parts.fits set (map pair_of proved.now) word.now) }
    ensures known { OnOk result (fit.new.items ≡ map (parts.fits_name set (map pair_of proved.now)) known.new) }
{
    match known.find(&word.name) {
        Some(place) => Ok(fit_at(fit.as_slice(), place)),
        None => {
            let is_fit = fits(set, proved, word);
            known.push(&word.name)?;
            fit.push(is_fit)?;
            Ok(is_fit)
        }
    }
}

// The first of these names that is none.
#[tactic(auto, using(smv_first_fault::proofs::LeastLaws::leasts))]
fn first_unfit(
    alloc: Global,
    set: u16,
    proved: &[Proved],
    names: &[Word],
) -> Result<Option<u32>, AllocError>
    ensures { IfOk result (λ place. place ≡ least (flat_map (λ word. faults.place_if (not (parts.fits set (map pair_of proved.now) word)) word.at) names.now)) }
{
    let mut known = NameIndex::new(alloc);
    let mut fit = Vec::new(alloc);
    let mut found = None;
    for word in names {
        let is_fit = noted_fit(&mut known, &mut fit, set, proved, word)?;
        found = first_of(found, place_if(!is_fit, word.at));
    }
    Ok(found)
}

// The first misfit in one use.
fn braces_misfit(
    alloc: Global,
    sets: &NameIndex,
    proved: &[Proved],
    x: &Use,
) -> Result<Option<u32>, AllocError>
    ensures { IfOk result (λ place. place ≡ parts.braces_misfit sets.now (map pair_of proved.now) x.now) }
{
    match x {
        Use::Keep { set, names, .. } => match number_of(sets, &set.name)? {
            Some(number) => {
                let place = first_unfit(alloc, number, proved, names.as_slice())?;
                Ok(place)
            }
            None => Ok(Some(set.at)),
        },
        Use::Plain { .. } => Ok(None),
        Use::Early { .. } => Ok(None),
    }
}

// The first misfit in some uses.
#[tactic(auto, using(smv_first_fault::proofs::LeastLaws::leasts))]
fn first_braces_misfit(
    alloc: Global,
    sets: &NameIndex,
    proved: &[Proved],
    uses: &[Use],
) -> Result<Option<u32>, AllocError>
    ensures { IfOk result (λ place. place ≡ parts.first_among (map (parts.braces_misfit sets.now (map pair_of proved.now)) uses.now)) }
{
    let mut found = None;
    for x in uses {
        let place = braces_misfit(alloc, sets, proved, x)?;
        found = first_of(found, place);
    }
    Ok(found)
}

// A name of another type than its parameter.
fn other_type(bound: &[Param], word: &Word, p: &Param) -> Option<u32>
    ensures { result ≡ least (parts.other_type bound.now word.now p.now) }
{
    match named(bound, word) {
        Some(b) => place_if(!same_type(b.over, p.over), word.at),
        None => None,
    }
}

// The first of these names that is of another type than its parameter.
#[tactic(auto, using(smv_first_fault::proofs::LeastLaws::leasts))]
fn first_other_type(bound: &[Param], words: &[Word], params: &[Param]) -> Option<u32>
    ensures { result ≡ least (parts.other_types_in bound.now words.now params.now) }
{
    match words {
        [] => None,
        [word, more @ ..] => match params {
            [] => None,
            [p, others @ ..] => first_of(
                other_type(bound, word, p),
                first_other_type(bound, more, others),
            ),
        },
    }
}

// The first misfit in the brackets of a reference to a leaf.
fn misnamed(alloc: Global, bound: &[Param], x: &Proved) -> Result<Option<u32>, AllocError>
    ensures { IfOk result (λ place. place ≡ parts.misnamed bound.now (pair_of x.now)) }
{
    let words = x.of.names.as_slice();
    let params = x.leaf.params.as_slice();
    let doubled = first_doubled(alloc, words)?;
    let first = first_of(miscounted(params.len(), words), first_unbound(bound, words));
    let second = first_of(doubled, first_other_type(bound, words, params));
    Ok(first_of(first, second))
}

// The first misfit in the brackets of these references.
#[tactic(auto, using(smv_first_fault::proofs::LeastLaws::leasts))]
fn first_misnamed(
    alloc: Global,
    bound: &[Param],
    proved: &[Proved],
) -> Result<Option<u32>, AllocError>
    ensures { IfOk result (λ place. place ≡ parts.first_among (map (parts.misnamed bound.now) (map pair_of proved.now))) }
{
    let mut found = None;
    for x in proved {
        let place = misnamed(alloc, bound, x)?;
        found = first_of(found, place);
    }
    Ok(found)
}

/// The first place of fault 28 in a `using`.
pub(crate) fn misfit_in(
    alloc: Global,
    tables: &Tables,
    x: &Reading,
) -> Result<Option<u32>, AllocError>
    requires { AreTables tables.now }
    ensures { IfOk result (λ place. place ≡ readings.misfit_in tables.now.design.now (reading x.now)) }
{
    let braces = first_braces_misfit(
        alloc,
        &tables.sets,
        &x.proved.leaves,
        x.using.uses.as_slice(),
    )?;
    let names = first_misnamed(alloc, x.using.bound.as_slice(), &x.proved.leaves)?;
    Ok(first_of(braces, names))
}

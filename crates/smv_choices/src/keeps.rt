// The parameters that stay of each set type.
ghost use Rattle.std.specs.Prelude.{◌≡◌, ◌++◌, map, is_some, IfOk, OnOk};
ghost use Rattle.std.specs.List.{flat_map};
ghost use Rattle.smv_choices.specs.Parts.{kept_from, kept_one, keep_with};

use crate::meanings::number_of;
use name_index::NameIndex;
use smv_core::flat::Keep;
use smv_core::seq::Seq;
use smv_core::tree::{Ref, Use, Word};
use std::alloc::{AllocError, Global};

/// The names in braces, with the number of the set type before them.
#[derive(Drop)]
pub struct Kept<'a> {
    pub set: u16,
    pub names: NameIndex<'a>,
}

// The names of these words.
#[tactic(auto, using(smv_mentions::proofs::Notes::noting))]
fn names_of<'a>(alloc: Global, words: &'a [Word]) -> Result<NameIndex<'a>, AllocError>
    ensures { IfOk result (λ names. names ≡ map (λ word. word.name) words.now) }
{
    let mut names = NameIndex::new(alloc);
    for word in words {
        names.push(&word.name)?;
    }
    Ok(names)
}

// The braces of one use more, where they are of a set type.
#[tactic(auto, using(smv_mentions::proofs::Notes::noting))]
fn add_kept<'a>(
    kept: &mut Vec<Kept<'a>>,
    alloc: Global,
    sets: &NameIndex,
    x: &'a Use,
) -> Result<(), AllocError>
    ensures { OnOk result (kept.new.items ≡ kept.old.items ++ kept_one sets.now x.now) }
{
    match x {
        Use::Keep { set, names, .. } => {
            if let Some(number) = number_of(sets, &set.name)? {
                let names = names_of(alloc, names.as_slice())?;
                kept.push(Kept { set: number, names })?;
            }
            Ok(())
        }
        Use::Plain { .. } => Ok(()),
        Use::Early { .. } => Ok(()),
    }
}

/// The braces of some uses, each read once for all leaves that are proved with them.
#[tactic(auto, using(smv_mentions::proofs::Notes::noting))]
pub(crate) fn all_kept<'a>(
    alloc: Global,
    sets: &NameIndex,
    uses: &'a [Use],
) -> Result<Vec<Kept<'a>>, AllocError>
    ensures { IfOk result (λ kept. kept.items ≡ flat_map (kept_one sets.now) uses.now) }
{
    let mut kept = Vec::new(alloc);
    for x in uses {
        add_kept(&mut kept, alloc, sets, x)?;
    }
    Ok(kept)
}

// The numbers of the parameters that the braces name, by the brackets of the reference.
fn kept_params(alloc: Global, brackets: &[Word], names: &NameIndex) -> Result<Vec<u16>, AllocError>
    ensures { IfOk result (λ params. params.items ≡ kept_from 0 brackets.now names.now) }
{
    let mut params = Vec::new(alloc);
    for (index, word) in brackets.iter().enumerate() {
        if names.find(&word.name).is_some() {
            match u16::try_from(index) {
                Ok(number) => params.push(number)?,
                Err(_) => return Err(AllocError),
            }
        }
    }
    Ok(params)
}

// What some braces keep by the brackets of a reference.
fn keep(alloc: Global, of: &Ref, kept: &Kept) -> Result<Keep, AllocError>
    ensures { IfOk result (λ keep. keep ≡ keep_with of.now kept.now) }
{
    let params = kept_params(alloc, of.names.as_slice(), &kept.names)?;
    Ok(Keep {
        set: kept.set,
        params: Seq::from_vec(params),
    })
}

/// What each of some braces keeps by the brackets of a reference.
#[tactic(auto, using(smv_mentions::proofs::Notes::noting))]
pub(crate) fn all_keeps(alloc: Global, of: &Ref, kept: &[Kept]) -> Result<Vec<Keep>, AllocError>
    ensures { IfOk result (λ keeps. keeps.items ≡ map (keep_with of.now) kept.now) }
{
    let mut keeps = Vec::new(alloc);
    for x in kept {
        keeps.push(keep(alloc, of, x)?)?;
    }
    Ok(keeps)
}

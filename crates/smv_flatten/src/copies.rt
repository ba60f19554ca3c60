// Copies of names in a text, and of references to units with the names of their instance in front.
ghost use Rattle.std.specs.Prelude.{◌≡◌, ◌++◌, map, IfOk, OnOk};
ghost use Rattle.law_designs.specs.Flattening as flattening;
ghost use Rattle.smv_flatten_families.specs.Held.{instance_of, scope_here};
ghost use Rattle.smv_flatten.specs.Forms.{word_at};

use smv_copies::copy_name;
use smv_core::seq::Seq;
use smv_core::tree::{Ref, Use, Word};
use smv_flatten_families::numbers::Here;
use std::alloc::{AllocError, Global};

/// A copy of a name in a text.
pub(crate) fn copied_word(alloc: Global, word: &Word) -> Result<Word, AllocError>
    ensures { IfOk result (λ copy. copy ≡ word.now) }
{
    let name = copy_name(alloc, &word.name)?;
    Ok(Word { name, at: word.at })
}

/// A copy of names in a text.
pub(crate) fn copied_words(alloc: Global, words: &[Word]) -> Result<Seq<Word>, AllocError>
    ensures { IfOk result (λ copies. copies ≡ words.now) }
{
    let mut copies = Seq::new(alloc);
    add_words(alloc, words, &mut copies)?;
    Ok(copies)
}

// Names in a text, one behind another.
#[tactic(auto, using(smv_mentions::proofs::Notes::noting))]
fn add_words(alloc: Global, words: &[Word], out: &mut Seq<Word>) -> Result<(), AllocError>
    ensures { OnOk result (out.new ≡ out.old ++ words.now) }
{
    for word in words {
        let copy = copied_word(alloc, word)?;
        out.push(copy)?;
    }
    Ok(())
}

// The names of an instance, each at this place.
#[tactic(auto, using(smv_mentions::proofs::Notes::noting))]
fn prefix(alloc: Global, here: Here, at: u32, out: &mut Seq<Word>) -> Result<(), AllocError>
    ensures { OnOk result (out.new ≡ out.old ++ map (word_at at) (instance_of here.entry)) }
{
    for name in here.instance {
        let name = copy_name(alloc, name)?;
        out.push(Word { name, at })?;
    }
    Ok(())
}

// The layer of a reference, if it has one.
fn copied_layer(alloc: Global, layer: &Option<Word>) -> Result<Option<Word>, AllocError>
    ensures { IfOk result (λ copy. copy ≡ layer.now) }
{
    match layer {
        Some(word) => Ok(Some(copied_word(alloc, word)?)),
        None => Ok(None),
    }
}

/// A reference with the names of its instance in front.
#[tactic(auto, using(smv_mentions::proofs::Notes::noting), unfolding(smv_flatten_families::specs::Held::scope_here))]
pub fn whole(alloc: Global, here: Here, of: &Ref) -> Result<Ref, AllocError>
    ensures { IfOk result (λ copy. copy ≡ flattening.whole (scope_here here.entry) of.now) }
{
    let mut path = Seq::new(alloc);
    prefix(alloc, here, of.at, &mut path)?;
    add_words(alloc, of.path.as_slice(), &mut path)?;
    let names = copied_words(alloc, of.names.as_slice())?;
    let layer = copied_layer(alloc, &of.layer)?;
    Ok(Ref {
        path,
        names,
        layer,
        free: of.free,
        at: of.at,
    })
}

/// References with the names of their instance in front.
#[tactic(auto, using(smv_mentions::proofs::Notes::noting))]
pub(crate) fn all_whole(alloc: Global, here: Here, refs: &[Ref]) -> Result<Seq<Ref>, AllocError>
    ensures { IfOk result (λ copies. copies ≡ map (flattening.whole (scope_here here.entry)) refs.now) }
{
    let mut copies = Seq::new(alloc);
    for of in refs {
        let copy = whole(alloc, here, of)?;
        copies.push(copy)?;
    }
    Ok(copies)
}

/// What a `using` names, with the names of its instance in front.
fn whole_use(alloc: Global, here: Here, part: &Use) -> Result<Use, AllocError>
    ensures { IfOk result (λ copy. copy ≡ flattening.whole_use (scope_here here.entry) part.now) }
{
    match part {
        Use::Plain { of } => {
            let of = whole(alloc, here, of)?;
            Ok(Use::Plain { of })
        }
        Use::Early { of } => {
            let of = whole(alloc, here, of)?;
            Ok(Use::Early { of })
        }
        Use::Keep { set, names, at } => {
            let set = copied_word(alloc, set)?;
            let names = copied_words(alloc, names.as_slice())?;
            Ok(Use::Keep {
                set,
                names,
                at: *at,
            })
        }
    }
}

/// All that a `using` names.
#[tactic(auto, using(smv_mentions::proofs::Notes::noting))]
pub(crate) fn whole_uses(alloc: Global, here: Here, uses: &[Use]) -> Result<Seq<Use>, AllocError>
    ensures { IfOk result (λ copies. copies ≡ map (flattening.whole_use (scope_here here.entry)) uses.now) }
{
    let mut copies = Seq::new(alloc);
    for part in uses {
        let copy = whole_use(alloc, here, part)?;
        copies.push(copy)?;
    }
    Ok(copies)
}

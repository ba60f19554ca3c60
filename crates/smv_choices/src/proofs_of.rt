// The `using` that proves each leaf.
ghost use Rattle.std.specs.Prelude.{◌≡◌, ◌++◌, map, flat_map, find, IfOk, OnOk, option_map, option_and_then, slice_get};
ghost use Rattle.law_splits.specs.Leaves.{named_by};
ghost use Rattle.smv_choices.specs.Readings.{reading, proof_held, proofs_with, names_held};

use crate::readings::Reading;
use name_index::NameIndex;
use smv_core::flat::Leaf;
use smv_core::name::Name;
use smv_core::tree::Ref;
use smv_references::names::name_of;
use std::alloc::{AllocError, Global};

/// A `using`, and a reference after its `prove`.
#[derive(Clone, Copy)]
pub struct Proof<'a> {
    pub by: &'a Reading<'a>,
    pub of: &'a Ref,
}

// Those of one `using` more.
#[tactic(auto, using(smv_mentions::proofs::Notes::noting))]
fn add_using<'a>(out: &mut Vec<Proof<'a>>, by: &'a Reading<'a>) -> Result<(), AllocError>
    ensures { OnOk result (map proof_held out.new.items ≡ map proof_held out.old.items ++ proofs_with (reading by.now)) }
{
    for of in by.using.proves.as_slice() {
        out.push(Proof { by, of })?;
    }
    Ok(())
}

/// All of them, in flat order.
#[tactic(auto, using(smv_mentions::proofs::Notes::noting))]
pub(crate) fn all_proofs<'a>(
    alloc: Global,
    all: &'a [Reading<'a>],
) -> Result<Vec<Proof<'a>>, AllocError>
    ensures { IfOk result (λ out. map proof_held out.items ≡ flat_map proofs_with (map reading all.now)) }
{
    let mut out = Vec::new(alloc);
    for x in all {
        add_using(&mut out, x)?;
    }
    Ok(out)
}

/// The names of what is proved.
pub(crate) fn names_of_proofs(alloc: Global, proofs: &[Proof]) -> Result<Vec<Name>, AllocError>
    ensures { IfOk result (λ names. names.items ≡ map (λ proof. named_by (proof_held proof).of) proofs.now) }
{
    let mut names = Vec::new(alloc);
    for proof in proofs {
        names.push(name_of(alloc, proof.of)?)?;
    }
    Ok(names)
}

/// Each name by its first place.
#[tactic(auto, using(smv_mentions::proofs::Notes::noting))]
pub fn index_of<'a>(alloc: Global, names: &'a [Name]) -> Result<NameIndex<'a>, AllocError>
    ensures { IfOk result (λ index. index ≡ names.now) }
{
    let mut index = NameIndex::new(alloc);
    for name in names {
        index.push(name)?;
    }
    Ok(index)
}

// What stands at a place, if there is one.
fn proof_at<'a>(proofs: &[Proof<'a>], place: Option<usize>) -> Option<Proof<'a>>
    ensures { result ≡ option_and_then (slice_get proofs.now) place }
{
    match place {
        Some(place) => proofs.get(place).copied(),
        None => None,
    }
}

/// The `using` that proves a leaf, if there is one.
pub(crate) fn proof_for<'a>(
    proofs: &[Proof<'a>],
    index: &NameIndex,
    leaf: &Leaf,
) -> Option<Proof<'a>>
    requires { index.now ≡ map (λ proof. named_by (proof_held proof).of) proofs.now }
    ensures { option_map proof_held result ≡ find (names_held leaf.now) (map proof_held proofs.now) }
{
    proof_at(proofs, index.find(&leaf.name))
}

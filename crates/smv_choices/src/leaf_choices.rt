// The choice of each leaf.
ghost use Rattle.std.specs.Prelude.{◌≡◌, map, filter, not, IfOk, Some, option_map, option_copied};
ghost use Rattle.std.specs.List.{list_any};
ghost use Rattle.law_splits.specs.Leaves.{named_by};
ghost use Rattle.law_uses.specs.Choices as spec;
ghost use Rattle.smv_choices.specs.Held.{AreTables};
ghost use Rattle.smv_choices.specs.Parts.{choice_with, without_places};
ghost use Rattle.smv_choices.specs.Readings as readings;
ghost use Rattle.smv_choices.specs.Readings.{reading, proof_held, choice_held};

use crate::keeps::all_keeps;
use crate::own::{is_own, own_map};
use crate::proofs_of::{Proof, all_proofs, index_of, names_of_proofs, proof_for};
use crate::readings::Reading;
use crate::tables::Tables;
use name_index::NameIndex;
use smv_core::flat::{Assumed, Choice, Def, Keep, Leaf, Pick, Unit};
use smv_core::seq::Seq;
use std::alloc::{AllocError, Global};

// No `using` proves the leaf.
fn nothing_used(alloc: Global) -> Choice
    ensures { result ≡ spec.nothing_used }
{
    Choice {
        picks: Seq::new(alloc),
        claims: Seq::new(alloc),
        itself: false,
        keeps: Seq::new(alloc),
    }
}

// Whether the leaf's own map is used.
fn has_own(own: Option<&Def>, picks: &[(u32, Pick)]) -> bool
    ensures { result ≡ list_any (spec.is_own (option_copied own.entry)) (without_places picks.now) }
{
    for (_, pick) in picks {
        if is_own(own, pick) {
            return true;
        }
    }
    false
}

// The choices besides the leaf's own map.
#[tactic(auto, using(smv_mentions::proofs::Notes::noting))]
fn besides(alloc: Global, own: Option<&Def>, picks: &[(u32, Pick)]) -> Result<Seq<Pick>, AllocError>
    ensures { IfOk result (λ out. out ≡ filter (λ p. not (spec.is_own (option_copied own.entry) p)) (without_places picks.now)) }
{
    let mut out = Seq::new(alloc);
    for (_, pick) in picks {
        if !is_own(own, pick) {
            out.push(*pick)?;
        }
    }
    Ok(out)
}

// The claims that are assumed.
#[tactic(auto, using(smv_mentions::proofs::Notes::noting))]
fn assumed(alloc: Global, claims: &[(u32, Assumed)]) -> Result<Seq<Assumed>, AllocError>
    ensures { IfOk result (λ out. out ≡ without_places claims.now) }
{
    let mut out = Seq::new(alloc);
    for (_, used) in claims {
        out.push(*used)?;
    }
    Ok(out)
}

// What uses choose, assume and keep, as the choice of a leaf with this map of its own.
fn gathered(
    alloc: Global,
    own: Option<&Def>,
    picks: &[(u32, Pick)],
    claims: &[(u32, Assumed)],
    keeps: Vec<Keep>,
) -> Result<Choice, AllocError>
    ensures { IfOk result (λ choice. choice ≡ choice_with (option_copied own.entry) (without_places picks.now) (without_places claims.now) keeps.items) }
{
    Ok(Choice {
        picks: besides(alloc, own, picks)?,
        claims: assumed(alloc, claims)?,
        itself: has_own(own, picks),
        keeps: Seq::from_vec(keeps),
    })
}

// What a leaf uses by a `using`.
fn choice_from(
    alloc: Global,
    units: &[Unit],
    tables: &Tables,
    leaf: &Leaf,
    proof: Proof,
) -> Result<Choice, AllocError>
    requires { AreTables tables.now }
    ensures { IfOk result (λ choice. choice ≡ choice_held tables.now.design.now units.now leaf.now (Some (proof_held proof.entry))) }
{
    let own = own_map(tables.design, units, leaf);
    let keeps = all_keeps(alloc, proof.of, proof.by.kept.as_slice())?;
    let found = &proof.by.found;
    gathered(
        alloc,
        own,
        found.picks.as_slice(),
        found.claims.as_slice(),
        keeps,
    )
}

// What a leaf uses, if a `using` proves it.
fn choice_by(
    alloc: Global,
    units: &[Unit],
    tables: &Tables,
    leaf: &Leaf,
    proof: Option<Proof>,
) -> Result<Choice, AllocError>
    requires { AreTables tables.now }
    ensures { IfOk result (λ choice. choice ≡ choice_held tables.now.design.now units.now leaf.now (option_map proof_held proof.entry)) }
{
    match proof {
        Some(proof) => choice_from(alloc, units, tables, leaf, proof),
        None => Ok(nothing_used(alloc)),
    }
}

// What a leaf uses.
fn choice_of(
    alloc: Global,
    units: &[Unit],
    tables: &Tables,
    proofs: &[Proof],
    index: &NameIndex,
    leaf: &Leaf,
) -> Result<Choice, AllocError>
    requires tables { AreTables tables.now }
    requires index { index.now ≡ map (λ proof. named_by (proof_held proof).of) proofs.now }
    ensures { IfOk result (λ choice. choice ≡ readings.choice_of tables.now.design.now units.now (map proof_held proofs.now) leaf.now) }
{
    let proof = proof_for(proofs, index, leaf);
    choice_by(alloc, units, tables, leaf, proof)
}

/// What each of some leaves uses, where this is what each `using` says.
#[tactic(auto, using(smv_mentions::proofs::Notes::noting))]
pub(crate) fn all_choices(
    alloc: Global,
    units: &[Unit],
    leaves: &[Leaf],
    tables: &Tables,
    all: &[Reading],
) -> Result<Vec<Choice>, AllocError>
    requires { AreTables tables.now }
    ensures { IfOk result (λ choices. choices.items ≡ map (readings.choice_of tables.now.design.now units.now (readings.proofs (map reading all.now))) leaves.now) }
{
    let proofs = all_proofs(alloc, all)?;
    let names = names_of_proofs(alloc, &proofs)?;
    let index = index_of(alloc, &names)?;
    let mut choices = Vec::new(alloc);
    for leaf in leaves {
        choices.push(choice_of(alloc, units, tables, &proofs, &index, leaf)?)?;
    }
    Ok(choices)
}

// The names of a design, each found by its first place, and which layers define which families.
ghost use Rattle.std.specs.Prelude.{◌≡◌, ◌||◌, ℕ, map, Some, IfOk, OnOk};
ghost use Rattle.std.specs.List.{list_any};
ghost use Rattle.law_obligations.specs.Outlines.{is_def};
ghost use Rattle.smv_choices.specs.Held.{AreTables, is_noted};

use name_index::NameIndex;
use smv_core::flat::{Claim, Def, Design, Family, SetInfo};
use smv_core::name::Name;
use std::alloc::{AllocError, Global};
use std::collections::HashSet;

/// A design with the names of its families, claims, layers and set types, and each family with each layer that defines it.
#[derive(Drop)]
pub struct Tables<'a> {
    pub design: &'a Design,
    pub families: NameIndex<'a>,
    pub claims: NameIndex<'a>,
    pub layers: NameIndex<'a>,
    pub sets: NameIndex<'a>,
    pub defined: HashSet<(u16, u16)>,
}

#[tactic(auto, using(smv_mentions::proofs::Notes::noting))]
fn names_of_families<'a>(alloc: Global, families: &'a [Family]) -> Result<NameIndex<'a>, AllocError>
    ensures { IfOk result (λ names. names ≡ map (λ family. family.name) families.now) }
{
    let mut names = NameIndex::new(alloc);
    for family in families {
        names.push(&family.name)?;
    }
    Ok(names)
}

#[tactic(auto, using(smv_mentions::proofs::Notes::noting))]
fn names_of_claims<'a>(alloc: Global, claims: &'a [Claim]) -> Result<NameIndex<'a>, AllocError>
    ensures { IfOk result (λ names. names ≡ map (λ claim. claim.name) claims.now) }
{
    let mut names = NameIndex::new(alloc);
    for claim in claims {
        names.push(&claim.name)?;
    }
    Ok(names)
}

#[tactic(auto, using(smv_mentions::proofs::Notes::noting))]
fn names_of_layers<'a>(alloc: Global, layers: &'a [Name]) -> Result<NameIndex<'a>, AllocError>
    ensures { IfOk result (λ names. names ≡ layers.now) }
{
    let mut names = NameIndex::new(alloc);
    for layer in layers {
        names.push(layer)?;
    }
    Ok(names)
}

#[tactic(auto, using(smv_mentions::proofs::Notes::noting))]
fn names_of_sets<'a>(alloc: Global, sets: &'a [SetInfo]) -> Result<NameIndex<'a>, AllocError>
    ensures { IfOk result (λ names. names ≡ map (λ info. info.name) sets.now) }
{
    let mut names = NameIndex::new(alloc);
    for info in sets {
        names.push(&info.name)?;
    }
    Ok(names)
}

// Notes the family and the layer of a definition.
fn note_def(defined: &mut HashSet<(u16, u16)>, def: &Def) -> Result<(), AllocError>
    ensures { OnOk result ((family layer : ℕ) → is_noted defined.new (family, layer) ≡ (is_def family layer (Some def.now) || is_noted defined.old (family, layer))) }
{
    match def.layer {
        Some(layer) => {
            defined.insert((def.family, layer))?;
            Ok(())
        }
        None => Ok(()),
    }
}

// Each family with each layer that defines it.
fn defined_in(alloc: Global, defs: &[Def]) -> Result<HashSet<(u16, u16)>, AllocError>
    ensures { IfOk result (λ defined. (family layer : ℕ) → is_noted defined (family, layer) ≡ list_any (λ def. is_def family layer (Some def)) defs.now) }
{
    let mut defined = HashSet::new(alloc);
    for def in defs {
        note_def(&mut defined, def)?;
    }
    Ok(defined)
}

/// The tables of a design.
pub fn make_tables<'a>(alloc: Global, design: &'a Design) -> Result<Tables<'a>, AllocError>
    ensures same { IfOk result (λ tables. tables.design.now ≡ design.now) }
    ensures tables { IfOk result (λ tables. AreTables tables) }
{
    Ok(Tables {
        design,
        families: names_of_families(alloc, design.families.as_slice())?,
        claims: names_of_claims(alloc, design.claims.as_slice())?,
        layers: names_of_layers(alloc, design.layers.as_slice())?,
        sets: names_of_sets(alloc, design.sets.as_slice())?,
        defined: defined_in(alloc, design.defs.as_slice())?,
    })
}

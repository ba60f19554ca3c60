// The names of units, and of what splits are of.
ghost use Rattle.std.specs.Prelude.{◌≡◌, [], map, option_copied, IfOk};
ghost use Rattle.law_obligations.specs.Outlines.{unit_in};
ghost use Rattle.law_splits.specs.Leaves as spec;
ghost use Rattle.law_splits.specs.Leaves.{named_by, in_layer};
ghost use Rattle.smv_splits.specs.Looked.{layer_name, family_name};

use name_index::NameIndex;
use smv_copies::copy_name;
use smv_core::flat::{Def, Design, FlatSplit, Unit};
use smv_core::name::Name;
use smv_references::names::name_of;
use std::alloc::{AllocError, Global};

/// The empty name.
pub(crate) fn no_name(alloc: Global) -> Name
    ensures { result ≡ [] }
{
    Name::from_vec(Vec::new(alloc))
}

// A name with a layer, or without one.
#[tactic(auto, using(smv_mentions::proofs::Notes::noting))]
fn with_layer(alloc: Global, name: &Name, layer: Option<&Name>) -> Result<Name, AllocError>
    ensures { IfOk result (λ whole. whole ≡ in_layer name.now (option_copied layer.entry)) }
{
    let mut bytes = Vec::new(alloc);
    bytes.extend_from_slice(name.as_bytes())?;
    match layer {
        Some(layer) => {
            bytes.push(b'/')?;
            bytes.push(b'/')?;
            bytes.extend_from_slice(layer.as_bytes())?;
            Ok(Name::from_vec(bytes))
        }
        None => Ok(Name::from_vec(bytes)),
    }
}

// The layer of a definition, if it is in one.
fn layer_of<'a>(design: &'a Design, def: &Def) -> Option<&'a Name>
    ensures { option_copied result ≡ layer_name design.now def.now }
{
    match def.layer {
        Some(layer) => design.layers.as_slice().get(usize::from(layer)),
        None => None,
    }
}

// The name of a map: that of its family with its layer.
fn map_name(alloc: Global, design: &Design, def: &Def) -> Result<Name, AllocError>
    ensures { IfOk result (λ name. name ≡ in_layer (family_name design.now def.now) (layer_name design.now def.now)) }
{
    let layer = layer_of(design, def);
    match design.families.as_slice().get(usize::from(def.family)) {
        Some(family) => {
            let name = with_layer(alloc, &family.name, layer)?;
            Ok(name)
        }
        None => {
            let none = no_name(alloc);
            let name = with_layer(alloc, &none, layer)?;
            Ok(name)
        }
    }
}

/// The name of a unit: that of a claim, and that of a map's family with its layer.
pub fn unit_name(alloc: Global, design: &Design, unit: Unit) -> Result<Name, AllocError>
    ensures { IfOk result (λ name. name ≡ spec.name_of design.now (unit_in design.now unit)) }
{
    match unit {
        Unit::Map { def } => match design.defs.as_slice().get(usize::from(def)) {
            Some(def) => {
                let name = map_name(alloc, design, def)?;
                Ok(name)
            }
            None => Ok(no_name(alloc)),
        },
        Unit::Claim { claim } => match design.claims.as_slice().get(usize::from(claim)) {
            Some(claim) => {
                let name = copy_name(alloc, &claim.name)?;
                Ok(name)
            }
            None => Ok(no_name(alloc)),
        },
    }
}

/// The names of what these splits are of.
pub fn names_split(alloc: Global, splits: &[FlatSplit]) -> Result<Vec<Name>, AllocError>
    ensures { IfOk result (λ names. names.items ≡ map (λ split. named_by split.of) splits.now) }
{
    let mut names = Vec::new(alloc);
    for split in splits {
        let name = name_of(alloc, &split.of)?;
        names.push(name)?;
    }
    Ok(names)
}

/// Each name by its first place.
#[tactic(auto, using(smv_mentions::proofs::Notes::noting))]
pub fn index_of<'a>(alloc: Global, names: &'a [Name]) -> Result<NameIndex<'a>, AllocError>
    ensures { IfOk result (λ index. index ≡ names.now) }
{
    let mut index = NameIndex::new(alloc);
    for name in names {
        index.push(name)?;
    }
    Ok(index)
}

// What references mean.
ghost use Rattle.std.specs.Prelude.{◌≡◌, option_map, Some, None, IfOk};
ghost use Rattle.name_index.specs.Position.{position};
ghost use Rattle.law_uses.specs.Uses as uses;
ghost use Rattle.law_uses.specs.declared.meaning.Meaning.TheVariants as means;
ghost use Rattle.smv_choices.specs.Held.{AreTables};

use crate::tables::Tables;
use law_uses::meaning::Meaning;
use name_index::NameIndex;
use smv_core::name::Name;
use smv_core::tree::Ref;
use smv_references::names::path_of;
use std::alloc::{AllocError, Global};

/// The number of a name, where it fits. No text within the limits has one that does not.
pub fn number_of(names: &NameIndex, name: &Name) -> Result<Option<u16>, AllocError>
    ensures { IfOk result (λ number. number ≡ position names.now name.now) }
{
    match names.find(name) {
        Some(place) => match u16::try_from(place) {
            Ok(number) => Ok(Some(number)),
            Err(_) => Err(AllocError),
        },
        None => Ok(None),
    }
}

// `y//L`, where the layer L defines the family y.
fn definition_in(tables: &Tables, family: Option<u16>, layer: Option<u16>) -> Option<Meaning>
    requires { AreTables tables.now }
    ensures { result ≡ uses.definition_in tables.now.design.now family layer }
{
    match (family, layer) {
        (Some(family), Some(layer)) => {
            if tables.defined.contains(&(family, layer)) {
                Some(Meaning::Definition {
                    family,
                    layer: Some(layer),
                })
            } else {
                None
            }
        }
        _ => None,
    }
}

// A family without a definition.
fn free(family: Option<u16>) -> Option<Meaning>
    ensures { result ≡ option_map (λ family. means.Definition family None) family }
{
    match family {
        Some(family) => Some(Meaning::Definition {
            family,
            layer: None,
        }),
        None => None,
    }
}

// A claim.
fn assumed(claim: Option<u16>) -> Option<Meaning>
    ensures { result ≡ option_map means.Claim claim }
{
    match claim {
        Some(claim) => Some(Meaning::Claim { claim }),
        None => None,
    }
}

/// What a reference before `prove` means.
pub(crate) fn meaning_of(
    alloc: Global,
    tables: &Tables,
    of: &Ref,
) -> Result<Option<Meaning>, AllocError>
    requires { AreTables tables.now }
    ensures { IfOk result (λ meaning. meaning ≡ uses.meaning_of tables.now.design.now of.now) }
{
    let path = path_of(alloc, of)?;
    if of.free {
        return Ok(free(number_of(&tables.families, &path)?));
    }
    match &of.layer {
        Some(layer) => {
            let family = number_of(&tables.families, &path)?;
            let layer = number_of(&tables.layers, &layer.name)?;
            Ok(definition_in(tables, family, layer))
        }
        None => Ok(assumed(number_of(&tables.claims, &path)?)),
    }
}

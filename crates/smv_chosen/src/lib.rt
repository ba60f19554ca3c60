//! What the proof of a leaf uses, looked up in its design: the definition that is chosen for a family, and that each assumed claim is one of the design's.
//! For the calls that give cones and problems. `chosen` is the definition `chosen` of `law_obligations/specs/Outlines`, where a reader begins.
#![tactic(auto)]

ghost use Rattle.std.specs.Prelude.{◌≡◌, ◌&&◌, find, filter, nat_eq, option_copied, slice_get, Some};
ghost use Rattle.law_obligations.specs.Outlines as spec;
ghost use Rattle.law_obligations.specs.Outlines.{is_in_layer, earliest};
ghost use Rattle.smv_chosen.specs.Chosen as words;
ghost use Rattle.smv_chosen.specs.Chosen.{earlier_of, map_of_unit, first_map};

pub mod laws;

use smv_core::flat::{Def, Design, Family, Pick, Unit};

// Of two definitions the one that stands earlier; of two at one place the first.
fn earlier<'a>(found: Option<&'a Def>, def: &'a Def) -> Option<&'a Def>
    ensures { option_copied result ≡ earlier_of (option_copied found.entry) (Some def.now) }
{
    match found {
        None => Some(def),
        Some(other) => {
            if def.place < other.place {
                Some(def)
            } else {
                Some(other)
            }
        }
    }
}

// A definition that may be the base definition of a family: of an abstract family any, of another that outside layers.
fn may_be_base(family: u16, f: &Family, def: &Def) -> bool
    ensures { result ≡ words.may_be_base family f.now def.now }
{
    def.family == family && (f.is_abstract || def.layer.is_none())
}

// The earliest of the definitions that may be the base definition of a family.
#[tactic(auto, using(crate::proofs::BaseLaws::bases))]
fn first_base<'a>(family: u16, f: &Family, defs: &'a [Def]) -> Option<&'a Def>
    ensures { option_copied result ≡ earliest (filter (words.may_be_base family f.now) defs.now) }
{
    let mut found = None;
    for def in defs {
        if may_be_base(family, f, def) {
            found = earlier(found, def);
        }
    }
    found
}

// The family of a number.
fn family_at(design: &Design, family: u16) -> Option<&Family>
    ensures { option_copied result ≡ slice_get design.now.families family }
{
    design.families.as_slice().get(family as usize)
}

/// The base definition of a family; without one it is free.
pub fn base_of<'a>(design: &'a Design, family: u16) -> Option<&'a Def>
    ensures { option_copied result ≡ spec.base_of design.now family }
{
    match family_at(design, family) {
        None => None,
        Some(f) => first_base(family, f, design.defs.as_slice()),
    }
}

// A definition of a family in a layer.
fn is_def(family: u16, layer: u16, def: &Def) -> bool
    ensures { result ≡ (nat_eq def.now.family family && is_in_layer layer def.now.layer) }
{
    def.family == family && def.layer == Some(layer)
}

// The definition of a unit that is the map of a family in a layer.
fn map_of_unit<'a>(design: &'a Design, family: u16, layer: u16, unit: &Unit) -> Option<&'a Def>
    ensures { option_copied result ≡ map_of_unit design.now family layer unit.now }
{
    match unit {
        Unit::Claim { .. } => None,
        Unit::Map { def } => match design.defs.as_slice().get(*def as usize) {
            None => None,
            Some(def) => {
                if is_def(family, layer, def) {
                    Some(def)
                } else {
                    None
                }
            }
        },
    }
}

// That of the first such unit.
fn first_map<'a>(design: &'a Design, units: &[Unit], family: u16, layer: u16) -> Option<&'a Def>
    ensures { option_copied result ≡ first_map design.now family layer units.now }
{
    for unit in units {
        if let Some(def) = map_of_unit(design, family, layer, unit) {
            return Some(def);
        }
    }
    None
}

// The definition of a family in a layer: that of its unit, and without one the base definition.
#[tactic(auto, using(crate::proofs::MapLaws::maps))]
fn map_in_layer<'a>(design: &'a Design, units: &[Unit], family: u16, layer: u16) -> Option<&'a Def>
    ensures { option_copied result ≡ spec.map_in_layer (record { design = design.now; units = units.now }) family (Some layer) }
{
    match first_map(design, units, family, layer) {
        Some(def) => Some(def),
        None => base_of(design, family),
    }
}

// The first pick of a family.
fn pick_of(picks: &[Pick], family: u16) -> Option<Pick>
    ensures { result ≡ find (λ p. nat_eq p.family family) picks.now }
{
    for pick in picks {
        if pick.family == family {
            return Some(*pick);
        }
    }
    None
}

/// The definition of a family that a proof uses: that of its pick, and else the base definition; none where the family is free.
pub fn chosen<'a>(
    design: &'a Design,
    units: &[Unit],
    picks: &[Pick],
    family: u16,
) -> Option<&'a Def>
    ensures { option_copied result ≡ spec.chosen (record { design = design.now; units = units.now }) picks.now family }
{
    match pick_of(picks, family) {
        None => base_of(design, family),
        Some(pick) => match pick.layer {
            None => None,
            Some(layer) => map_in_layer(design, units, pick.family, layer),
        },
    }
}

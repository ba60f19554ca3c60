// The unit of each map and of each claim.
ghost use Rattle.std.specs.Prelude.{◌≡◌, ℕ, nat_eq, IfOk, OnOk};
ghost use Rattle.law_obligations.specs.Outlines.{is_map};
ghost use Rattle.smv_core.specs.declared.flat.Unit.TheVariants.{Map};
ghost use Rattle.smv_unit_tables.specs.Units.{AreNoted, Notes, found_or, is_key, noted_claim, noted_map, same_pair};

use smv_core::flat::{Design, Unit};
use std::alloc::{AllocError, Global};
use std::collections::HashMap;

/// The places of units: of a map by its family and layer, and of a claim by its number.
#[derive(Drop)]
pub struct UnitTable {
    pub maps: HashMap<(u16, u16), usize>,
    pub claims: HashMap<u16, usize>,
}

impl UnitTable {
    /// The units of a design.
    pub fn of(alloc: Global, design: &Design, units: &[Unit]) -> Result<UnitTable, AllocError>
        ensures { IfOk result (λ table. AreNoted design.now units.now table) }
    {
        let mut table = UnitTable {
            maps: HashMap::new(alloc),
            claims: HashMap::new(alloc),
        };
        for place in 0..units.len() {
            let unit = units[place];
            table.note(design, unit, place)?;
        }
        Ok(table)
    }

    /// The place of the map of a family in a layer.
    pub fn map(&self, family: u16, layer: u16) -> Option<usize>
        ensures { result ≡ noted_map self.now.maps family layer }
    {
        self.maps.get(&(family, layer)).copied()
    }

    /// The place of a claim.
    pub fn claim(&self, claim: u16) -> Option<usize>
        ensures { result ≡ noted_claim self.now.claims claim }
    {
        self.claims.get(&claim).copied()
    }

    // One more unit.
    fn note(&mut self, design: &Design, unit: Unit, place: usize) -> Result<(), AllocError>
        ensures { OnOk result (Notes design.now unit place self.old self.new) }
    {
        match unit {
            Unit::Map { def } => match key_of(design, def) {
                Some(key) => {
                    note_map(&mut self.maps, key, place)?;
                    Ok(())
                }
                None => Ok(()),
            },
            Unit::Claim { claim } => {
                note_claim(&mut self.claims, claim, place)?;
                Ok(())
            }
        }
    }
}

// The family and the layer of a definition in a layer.
fn key_of(design: &Design, def: u16) -> Option<(u16, u16)>
    ensures { (family layer : ℕ) → is_map design.now family layer (Map def) ≡ is_key result family layer }
{
    match design.defs.as_slice().get(def as usize) {
        Some(def) => match def.layer {
            Some(layer) => Some((def.family, layer)),
            None => None,
        },
        None => None,
    }
}

// A map has its place, unless one of its family and layer had one.
fn note_map(
    maps: &mut HashMap<(u16, u16), usize>,
    key: (u16, u16),
    place: usize,
) -> Result<(), AllocError>
    ensures { OnOk result ((family layer : ℕ) → noted_map maps.new family layer ≡ found_or (noted_map maps.old family layer) (same_pair key (family, layer)) place) }
{
    if !maps.contains_key(&key) {
        maps.insert(key, place)?;
    }
    Ok(())
}

// A claim has its place, unless it had one.
fn note_claim(claims: &mut HashMap<u16, usize>, claim: u16, place: usize) -> Result<(), AllocError>
    ensures { OnOk result ((other : ℕ) → noted_claim claims.new other ≡ found_or (noted_claim claims.old other) (nat_eq claim other) place) }
{
    if !claims.contains_key(&claim) {
        claims.insert(claim, place)?;
    }
    Ok(())
}

//! For each family of a design the definition that a leaf's proof uses, in a table. The index and the table of the base definitions are made once for a design; a leaf puts what its picks choose
//! in their places (`choose`), and the base definitions back there when it is done (`put_back`). So a leaf costs what its picks are, whatever the families and the units.
//! For the calls that give the cones and problems of a leaf's cases, which look the definition of each element up. `IsTable` of `specs/Tables` says what the table holds; `chosen_defs` makes it for one leaf alone.
#![tactic(auto)]

ghost use Rattle.std.specs.Prelude.{◌≡◌, IfOk, slice_get, slice_set, option_copied, Some};
ghost use Rattle.law_obligations.specs.Outlines as outlines;
ghost use Rattle.smv_unit_tables.specs.Bases.{AreBases};
ghost use Rattle.smv_unit_tables.specs.Units.{AreNoted};
ghost use Rattle.smv_chosen_table.specs.Tables.{IsIndex, IsTable, AreBaseDefs, map_of_unit};

use smv_core::flat::{Def, Design, Pick, Unit};
use smv_unit_tables::bases::{base_at, bases, def_at};
use smv_unit_tables::units::UnitTable;
use std::alloc::{AllocError, Global};

/// By which the definitions are found that leaves may choose: the number of each family's base definition, and the place of each unit.
#[derive(Drop)]
pub struct DefIndex {
    pub bases: Vec<usize>,
    pub units: UnitTable,
}

/// The index of a design and its units.
pub fn index_of(alloc: Global, design: &Design, units: &[Unit]) -> Result<DefIndex, AllocError>
    ensures { IfOk result (IsIndex design.now units.now) }
{
    let bases = bases(alloc, design)?;
    let units = UnitTable::of(alloc, design, units)?;
    Ok(DefIndex { bases, units })
}

/// The table of the base definition of each family.
pub fn base_defs<'a>(
    alloc: Global,
    design: &'a Design,
    bases: &[usize],
) -> Result<Vec<Option<&'a Def>>, AllocError>
    requires { AreBases design.now bases.now }
    ensures { IfOk result (λ table. AreBaseDefs design.now table.items) }
{
    let mut table = Vec::new(alloc);
    for family in 0..design.families.len() {
        table.push(base_at(design, bases, family))?;
    }
    Ok(table)
}

// The unit at a place.
fn unit_at(units: &[Unit], place: usize) -> Option<Unit>
    ensures { result ≡ slice_get units.now place }
{
    units.get(place).copied()
}

// The definition of a unit that is a map.
fn map_of<'a>(design: &'a Design, unit: Option<Unit>) -> Option<&'a Def>
    ensures { option_copied result ≡ map_of_unit design.now unit }
{
    match unit {
        None => None,
        Some(Unit::Map { def }) => def_at(design, def as usize),
        Some(Unit::Claim { .. }) => None,
    }
}

// The definition of a family in a layer: that of the unit which is its map there, and without one the base definition.
fn map_in_layer<'a>(
    design: &'a Design,
    units: &[Unit],
    noted: &UnitTable,
    bases: &[usize],
    family: u16,
    layer: u16,
) -> Option<&'a Def>
    requires noted { AreNoted design.now units.now noted.now }
    requires bases { AreBases design.now bases.now }
    ensures { option_copied result ≡ outlines.map_in_layer (record { design = design.now; units = units.now }) family (Some layer) }
{
    match noted.map(family, layer) {
        None => base_at(design, bases, family as usize),
        Some(place) => map_of(design, unit_at(units, place)),
    }
}

// The definition that a pick chooses; none where the family is free.
fn picked<'a>(
    design: &'a Design,
    units: &[Unit],
    noted: &UnitTable,
    bases: &[usize],
    pick: Pick,
) -> Option<&'a Def>
    requires noted { AreNoted design.now units.now noted.now }
    requires bases { AreBases design.now bases.now }
    ensures { option_copied result ≡ outlines.map_in_layer (record { design = design.now; units = units.now }) pick.family pick.layer }
{
    match pick.layer {
        None => None,
        Some(layer) => map_in_layer(design, units, noted, bases, pick.family, layer),
    }
}

// A definition at the place of a family, if the table has it.
fn put<'a>(table: &mut Vec<Option<&'a Def>>, family: u16, def: Option<&'a Def>)
    ensures { table.new.items ≡ slice_set table.old.items family def.entry }
{
    let place = family as usize;
    if place < table.len() {
        table[place] = def;
    }
}

/// Puts what these picks choose into a table of base definitions: for each family it then has the definition that a proof with them uses, and none where the family is free. Of two picks of a family
/// the first counts, so they are taken from the last to the first.
pub fn choose<'a>(
    design: &'a Design,
    units: &[Unit],
    index: &DefIndex,
    picks: &[Pick],
    table: &mut Vec<Option<&'a Def>>,
)
    requires index { IsIndex design.now units.now index.now }
    requires table { AreBaseDefs design.now table.old.items }
    ensures { IsTable (record { design = design.now; units = units.now }) picks.now table.new.items }
{
    for place in (0..picks.len()).rev() {
        let pick = picks[place];
        let def = picked(design, units, &index.units, index.bases.as_slice(), pick);
        put(table, pick.family, def);
    }
}

/// Puts the base definitions back where these picks chose others.
pub fn put_back<'a>(
    design: &'a Design,
    units: &[Unit],
    index: &DefIndex,
    picks: &[Pick],
    table: &mut Vec<Option<&'a Def>>,
)
    requires index { IsIndex design.now units.now index.now }
    requires table { IsTable (record { design = design.now; units = units.now }) picks.now table.old.items }
    ensures { AreBaseDefs design.now table.new.items }
{
    for place in 0..picks.len() {
        let pick = picks[place];
        let def = base_at(design, index.bases.as_slice(), pick.family as usize);
        put(table, pick.family, def);
    }
}

/// The table of a leaf alone, by its picks.
pub fn chosen_defs<'a>(
    alloc: Global,
    design: &'a Design,
    units: &[Unit],
    picks: &[Pick],
) -> Result<Vec<Option<&'a Def>>, AllocError>
    ensures { IfOk result (λ table. IsTable (record { design = design.now; units = units.now }) picks.now table.items) }
{
    let index = index_of(alloc, design, units)?;
    let mut table = base_defs(alloc, design, index.bases.as_slice())?;
    choose(design, units, &index, picks, &mut table);
    Ok(table)
}

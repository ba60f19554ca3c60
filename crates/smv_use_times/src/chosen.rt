// The definitions that a leaf's picks choose, by their numbers.
ghost use Rattle.std.specs.Prelude.{◌≡◌, ◌≤◌, [], ◌∷◌, List, length, slice_get, option_and_then, IfOk};
ghost use Rattle.smv_core.specs.declared.flat.Pick.{Pick};
ghost use Rattle.law_obligations.specs.Outlines.{base_of, map_in, map_in_layer, said_by};
ghost use Rattle.smv_use_times.specs.Tables.{AreChosen, AreTables, outline};

use crate::tables::Tables;
use smv_core::flat::{Pick, Unit};
use std::alloc::{AllocError, Global};

/// The number of the definition that picks choose for each of so many families, and for a free family how many definitions there are. Of several picks of a
/// family the first counts, so they are taken from the last to the first.
pub fn chosen(
    alloc: Global,
    tables: &Tables,
    nodes: usize,
    picks: &[Pick],
) -> Result<Vec<usize>, AllocError>
    requires tables { AreTables tables.now }
    requires nodes { length tables.now.design.now.families ≤ nodes }
    ensures { IfOk result (λ next. AreChosen (outline tables.now) picks.now nodes next.items) }
{
    let mut next = base_numbers(alloc, tables, nodes)?;
    for place in (0..picks.len()).rev() {
        choose(tables, nodes, &mut next, picks[place]);
    }
    Ok(next)
}

// The number of the base definition of each of so many families.
fn base_numbers(alloc: Global, tables: &Tables, nodes: usize) -> Result<Vec<usize>, AllocError>
    requires tables { AreTables tables.now }
    requires nodes { length tables.now.design.now.families ≤ nodes }
    ensures { IfOk result (λ next. AreChosen (outline tables.now) [] nodes next.items) }
{
    let mut next = Vec::from_slice(alloc, tables.bases.as_slice())?;
    next.resize(nodes, tables.design.defs.len())?;
    Ok(next)
}

// One more pick, in front of those that are known.
fn choose(tables: &Tables, nodes: usize, next: &mut Vec<usize>, pick: Pick)
    requires { AreTables tables.now }
    ensures { (picks : List Pick) → AreChosen (outline tables.now) picks nodes next.old.items → AreChosen (outline tables.now) (pick ∷ picks) nodes next.new.items }
{
    let family = pick.family as usize;
    if family < next.len() {
        next[family] = picked(tables, pick);
    }
}

// The number of the definition that a pick chooses.
fn picked(tables: &Tables, pick: Pick) -> usize
    requires { AreTables tables.now }
    ensures { slice_get tables.now.design.now.defs result ≡ map_in_layer (outline tables.now) pick.family pick.layer }
{
    match pick.layer {
        None => tables.design.defs.len(),
        Some(layer) => match tables.places.map(pick.family, layer) {
            None => base(tables, pick.family),
            Some(place) => map_at(tables, place),
        },
    }
}

// The number of a family's base definition.
fn base(tables: &Tables, family: u16) -> usize
    requires { AreTables tables.now }
    ensures { slice_get tables.now.design.now.defs result ≡ base_of tables.now.design.now family }
{
    let count = tables.design.defs.len();
    tables.bases.get(family as usize).copied().unwrap_or(count)
}

// The number of the definition of the unit at a place.
fn map_at(tables: &Tables, place: usize) -> usize
    ensures { slice_get tables.now.design.now.defs result ≡ option_and_then map_in (said_by (outline tables.now) (slice_get tables.now.units.now place)) }
{
    match tables.units.get(place) {
        None => tables.design.defs.len(),
        Some(unit) => match unit {
            Unit::Map { def } => *def as usize,
            Unit::Claim { .. } => tables.design.defs.len(),
        },
    }
}

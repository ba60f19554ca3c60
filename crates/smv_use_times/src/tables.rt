// A design and its units in tables of numbers.
ghost use Rattle.std.specs.Prelude.{◌≡◌, IfOk};
ghost use Rattle.smv_use_times.specs.Tables.{AreTables};

use smv_core::flat::{Choice, Design, Leaf, Unit};
use smv_unit_tables::bases::bases;
use smv_unit_tables::reads::{reads_of_claims, reads_of_defs};
use smv_unit_tables::units::UnitTable;
use std::alloc::{AllocError, Global};

/// A design and its units: the number of each family's base definition, what each definition and each claim reads at the time of its value, and the place of
/// each unit.
#[derive(Drop)]
pub struct Tables<'a> {
    pub design: &'a Design,
    pub units: &'a [Unit],
    pub bases: Vec<usize>,
    pub defs: Vec<Vec<usize>>,
    pub claims: Vec<Vec<usize>>,
    pub places: UnitTable,
}

/// A unit with its place, its leaf and what the leaf's proof uses.
#[derive(Drop)]
pub struct Proof<'a> {
    pub place: usize,
    pub unit: Unit,
    pub leaf: &'a Leaf,
    pub choice: &'a Choice,
}

/// The tables of a design.
pub fn make_tables<'a>(
    alloc: Global,
    design: &'a Design,
    units: &'a [Unit],
) -> Result<Tables<'a>, AllocError>
    ensures design { IfOk result (λ tables. tables.design.now ≡ design.now) }
    ensures units { IfOk result (λ tables. tables.units.now ≡ units.now) }
    ensures tables { IfOk result (λ tables. AreTables tables) }
{
    let families = design.families.as_slice();
    let bases = bases(alloc, design)?;
    let defs = reads_of_defs(alloc, families, design.defs.as_slice())?;
    let claims = reads_of_claims(alloc, families, design.claims.as_slice())?;
    let places = UnitTable::of(alloc, design, units)?;
    Ok(Tables {
        design,
        units,
        bases,
        defs,
        claims,
        places,
    })
}

// The unit of a name.
ghost use Rattle.std.specs.Prelude.{◌≡◌, IfOk};
ghost use Rattle.law_obligations.specs.Outlines.{place_of};
ghost use Rattle.smv_read_design.specs.Named.{is_named};

use smv_core::flat::{Design, Unit};
use smv_splits::names::unit_name;
use std::alloc::{AllocError, Global};

/// The place of the first of these units that has the name, if one has.
pub fn place_named(
    alloc: Global,
    design: &Design,
    units: &[Unit],
    name: &[u8],
) -> Result<Option<usize>, AllocError>
    ensures { IfOk result (λ place. place ≡ place_of (is_named design.now name.now) units.now) }
{
    for place in 0..units.len() {
        let found = has_name(alloc, design, units[place], name)?;
        if found {
            return Ok(Some(place));
        }
    }
    Ok(None)
}

// Whether a unit has the name.
fn has_name(alloc: Global, design: &Design, unit: Unit, name: &[u8]) -> Result<bool, AllocError>
    ensures { IfOk result (λ found. found ≡ is_named design.now name.now unit) }
{
    let own = unit_name(alloc, design, unit)?;
    Ok(own.as_bytes() == name)
}

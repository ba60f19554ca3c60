//! The units of a design, which were worked out by hand.

use crate::texts::{designed, is_so};
use smv_core::flat::{Design, Unit};
use smv_plans::units::units;
use std::alloc::{AllocError, Global};
use std::test::Fail;

// A map by its definition, and a claim behind 100.
fn told(unit: &Unit) -> u32 {
    match *unit {
        Unit::Map { def } => u32::from(def),
        Unit::Claim { claim } => u32::from(claim) + 100,
    }
}

// The units of a design, as they are told here.
fn all_told(alloc: Global, design: &Design) -> Result<Vec<u32>, AllocError> {
    let units = units(alloc, design)?;
    let mut out = Vec::new(alloc);
    for unit in units.as_slice() {
        out.push(told(unit))?;
    }
    Ok(out)
}

// The abstract signal has its base definition in layer L, and the other one outside layers; each has one map. The two
// claims stand behind the first map and the second.
#[test]
fn units_stand_in_flat_order(rt: HostRuntime) -> Result<(), Fail> {
    let text =
        "module main() { abstract s : boolean; x : boolean; layer L : { s := 0; x := 0; } p : assert G 1; layer M : { s := 1; } q : assert G 1; x := 1; }";
    let design = designed(rt.alloc(), text)?;
    let out = all_told(rt.alloc(), &design)?;
    is_so(Ok(out.as_slice() == [1, 100, 2, 101].as_slice()))
}

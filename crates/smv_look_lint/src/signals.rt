// Which signals of a design are defined, are read, are what a map is about, and have a map that a proof uses.
ghost use Rattle.std.specs.Prelude.{◌≡◌, ◌++◌, flat_map, map, IfOk, OnOk};
ghost use Rattle.law_designs.specs.LayerFaults.{assignments_of};
ghost use Rattle.smv_loops.specs.Held.{reading_of, reference_of};
ghost use Rattle.smv_look_lint.specs.Signals as spec;
ghost use Rattle.smv_look_lint.specs.Signals.{families_defined, families_mapped, families_of, families_picked, families_read, map_families, other_families, picked, read_by, read_by_def, read_by_split};

use smv_core::flat::{Choice, Claim, Def, Design, FlatExpr, FlatPair, FlatSplit, Pick, Unit};
use smv_loops::reading::{Held, Read, readings, references};
use std::alloc::{AllocError, Global};

// The assignments of a definition, of all kinds.
#[tactic(auto, using(smv_loops::proofs::Listing::listing), unfolding(smv_loops::specs::Held::assigned_in))]
fn assignments<'a>(alloc: Global, def: &'a Def) -> Result<Vec<Held<'a>>, AllocError>
    ensures { IfOk result (λ held. map reading_of held.items ≡ assignments_of def.now) }
{
    let mut held = Vec::new(alloc);
    readings(alloc, &mut held, def.family, &[], &def.init)?;
    readings(alloc, &mut held, def.family, &[], &def.next)?;
    readings(alloc, &mut held, def.family, &[], &def.comb)?;
    Ok(held)
}

// Notes the families of some references, without this one.
fn push_others(out: &mut Vec<u32>, own: u16, reads: &[Read]) -> Result<(), AllocError>
    ensures { OnOk result (out.new.items ≡ out.old.items ++ other_families own (map reference_of reads.now)) }
{
    for read in reads {
        if read.family != own {
            out.push(u32::from(read.family))?;
        }
    }
    Ok(())
}

// Notes what these assignments of a family read, the family itself aside.
fn push_readings(out: &mut Vec<u32>, own: u16, held: &[Held]) -> Result<(), AllocError>
    ensures { OnOk result (out.new.items ≡ out.old.items ++ flat_map (λ a. other_families own a.reads) (map reading_of held.now)) }
{
    for a in held {
        push_others(out, own, a.reads.as_slice())?;
    }
    Ok(())
}

// Notes the families that a definition reads.
#[tactic(auto, unfolding(crate::specs::Signals::read_by_def))]
fn push_def(out: &mut Vec<u32>, alloc: Global, def: &Def) -> Result<(), AllocError>
    ensures { OnOk result (out.new.items ≡ out.old.items ++ read_by_def def.now) }
{
    let held = assignments(alloc, def)?;
    push_readings(out, def.family, held.as_slice())
}

// Notes the families of some references.
fn push_families(out: &mut Vec<u32>, reads: &[Read]) -> Result<(), AllocError>
    ensures { OnOk result (out.new.items ≡ out.old.items ++ families_of (map reference_of reads.now)) }
{
    for read in reads {
        out.push(u32::from(read.family))?;
    }
    Ok(())
}

// Notes the families that an expression reads.
#[tactic(auto, unfolding(smv_loops::specs::Held::read_in))]
fn push_expression(out: &mut Vec<u32>, alloc: Global, x: &FlatExpr) -> Result<(), AllocError>
    ensures { OnOk result (out.new.items ≡ out.old.items ++ read_by x.now) }
{
    let mut reads = Vec::new(alloc);
    references(&mut reads, x)?;
    push_families(out, reads.as_slice())
}

fn push_defs(out: &mut Vec<u32>, alloc: Global, defs: &[Def]) -> Result<(), AllocError>
    ensures { OnOk result (out.new.items ≡ out.old.items ++ flat_map read_by_def defs.now) }
{
    for def in defs {
        push_def(out, alloc, def)?;
    }
    Ok(())
}

fn push_claims(out: &mut Vec<u32>, alloc: Global, claims: &[Claim]) -> Result<(), AllocError>
    ensures { OnOk result (out.new.items ≡ out.old.items ++ flat_map (λ claim. read_by claim.body) claims.now) }
{
    for claim in claims {
        push_expression(out, alloc, &claim.body)?;
    }
    Ok(())
}

fn push_pairs(out: &mut Vec<u32>, alloc: Global, pairs: &[FlatPair]) -> Result<(), AllocError>
    ensures { OnOk result (out.new.items ≡ out.old.items ++ flat_map (λ pair. read_by pair.left) pairs.now) }
{
    for pair in pairs {
        push_expression(out, alloc, &pair.left)?;
    }
    Ok(())
}

// Notes the families that the equations of a split read.
#[tactic(auto, unfolding(crate::specs::Signals::read_by_split))]
fn push_split(out: &mut Vec<u32>, alloc: Global, split: &FlatSplit) -> Result<(), AllocError>
    ensures { OnOk result (out.new.items ≡ out.old.items ++ read_by_split split.now) }
{
    push_pairs(out, alloc, split.pairs.as_slice())
}

fn push_splits(out: &mut Vec<u32>, alloc: Global, splits: &[FlatSplit]) -> Result<(), AllocError>
    ensures { OnOk result (out.new.items ≡ out.old.items ++ flat_map read_by_split splits.now) }
{
    for split in splits {
        push_split(out, alloc, split)?;
    }
    Ok(())
}

/// The families that something reads.
pub(crate) fn families_read(alloc: Global, design: &Design) -> Result<Vec<u32>, AllocError>
    ensures { IfOk result (λ families. families.items ≡ families_read design.now) }
{
    let mut families = Vec::new(alloc);
    push_defs(&mut families, alloc, design.defs.as_slice())?;
    push_claims(&mut families, alloc, design.claims.as_slice())?;
    push_splits(&mut families, alloc, design.splits.as_slice())?;
    Ok(families)
}

// A definition may be the base definition of its family.
fn may_be_base(design: &Design, def: &Def) -> bool
    ensures { result ≡ spec.may_be_own_base design.now def.now }
{
    match design.families.as_slice().get(usize::from(def.family)) {
        None => false,
        Some(family) => family.is_abstract || def.layer.is_none(),
    }
}

/// The families with a definition that may be their base definition.
pub(crate) fn families_defined(alloc: Global, design: &Design) -> Result<Vec<u32>, AllocError>
    ensures { IfOk result (λ families. families.items ≡ families_defined design.now) }
{
    let mut families = Vec::new(alloc);
    for def in design.defs.as_slice() {
        if may_be_base(design, def) {
            families.push(u32::from(def.family))?;
        }
    }
    Ok(families)
}

// Notes the family of a map.
fn push_unit(out: &mut Vec<u32>, design: &Design, unit: Unit) -> Result<(), AllocError>
    ensures { OnOk result (out.new.items ≡ out.old.items ++ map_families design.now unit) }
{
    match unit {
        Unit::Claim { claim: _ } => Ok(()),
        Unit::Map { def } => match design.defs.as_slice().get(usize::from(def)) {
            None => Ok(()),
            Some(def) => {
                out.push(u32::from(def.family))?;
                Ok(())
            }
        },
    }
}

/// The families of which a unit is a map.
pub(crate) fn families_mapped(
    alloc: Global,
    design: &Design,
    units: &[Unit],
) -> Result<Vec<u32>, AllocError>
    ensures { IfOk result (λ families. families.items ≡ families_mapped design.now units.now) }
{
    let mut families = Vec::new(alloc);
    for unit in units {
        push_unit(&mut families, design, *unit)?;
    }
    Ok(families)
}

// Notes the families of which a definition in a layer is chosen.
fn push_picks(out: &mut Vec<u32>, picks: &[Pick]) -> Result<(), AllocError>
    ensures { OnOk result (out.new.items ≡ out.old.items ++ flat_map picked picks.now) }
{
    for pick in picks {
        if pick.layer.is_some() {
            out.push(u32::from(pick.family))?;
        }
    }
    Ok(())
}

/// The families of which a proof uses a map.
pub(crate) fn families_picked(alloc: Global, choices: &[Choice]) -> Result<Vec<u32>, AllocError>
    ensures { IfOk result (λ families. families.items ≡ families_picked choices.now) }
{
    let mut families = Vec::new(alloc);
    for choice in choices {
        push_picks(&mut families, choice.picks.as_slice())?;
    }
    Ok(families)
}

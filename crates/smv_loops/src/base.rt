// Base definitions, and the assignments of a design that hold at one time.
ghost use Rattle.std.specs.Prelude.{◌≡◌, [], ◌∷◌, ◌++◌, ◌||◌, ℕ, nat_lt, map, flat_map, filter, slice_get, IfOk, OnOk};
ghost use Rattle.law_designs.specs.Loops as spec;
ghost use Rattle.smv_loops.specs.Bases.{AreFirsts, NotedBy, is_below, undelayed_of};
ghost use Rattle.smv_loops.specs.Held.{reading_of};

use crate::reading::{Held, readings};
use smv_core::flat::{Def, Design};
use std::alloc::{AllocError, Global};

/// The `:=` and `init` assignments of the base definitions, one definition behind another.
pub fn undelayed<'a>(alloc: Global, design: &'a Design) -> Result<Vec<Held<'a>>, AllocError>
    ensures { IfOk result (λ held. map reading_of held.items ≡ flat_map undelayed_of (filter (spec.is_base design.now) design.now.defs)) }
{
    let firsts = firsts(alloc, design)?;
    let mut out = Vec::new(alloc);
    for def in design.defs.as_slice() {
        add(alloc, design, firsts.as_slice(), &mut out, def)?;
    }
    Ok(out)
}

// The assignments of a definition, where it is a base definition.
fn add<'a>(
    alloc: Global,
    design: &Design,
    firsts: &[Option<u32>],
    out: &mut Vec<Held<'a>>,
    def: &'a Def,
) -> Result<(), AllocError>
    requires { AreFirsts design.now firsts.now design.now.defs }
    ensures { OnOk result (map reading_of out.new.items ≡ map reading_of out.old.items ++ flat_map undelayed_of (filter (spec.is_base design.now) (def.now ∷ []))) }
{
    if !is_base(design, firsts, def) {
        return Ok(());
    }
    readings(alloc, out, def.family, &[], &def.comb)?;
    readings(alloc, out, def.family, &[], &def.init)
}

// It is a base definition.
fn is_base(design: &Design, firsts: &[Option<u32>], def: &Def) -> bool
    requires { AreFirsts design.now firsts.now design.now.defs }
    ensures { result ≡ spec.is_base design.now def.now }
{
    let family = usize::from(def.family);
    if !may_be_base(design, def) {
        return false;
    }
    if family >= firsts.len() {
        return true;
    }
    !is_below(firsts[family], def.place)
}

fn is_below(first: Option<u32>, place: u32) -> bool
    ensures { result ≡ is_below first place }
{
    match first {
        None => false,
        Some(first) => first < place,
    }
}

// For each family the least place of the definitions that may be its base definition.
fn firsts(alloc: Global, design: &Design) -> Result<Vec<Option<u32>>, AllocError>
    ensures { IfOk result (λ firsts. AreFirsts design.now firsts.items design.now.defs) }
{
    let mut firsts: Vec<Option<u32>> = Vec::new(alloc);
    for _family in design.families.as_slice() {
        firsts.push(None)?;
    }
    for def in design.defs.as_slice() {
        note(design, &mut firsts, def);
    }
    Ok(firsts)
}

// The place of a definition is noted, where it may be a base definition.
fn note(design: &Design, firsts: &mut Vec<Option<u32>>, def: &Def)
    ensures { NotedBy design.now def.now firsts.old.items firsts.new.items }
{
    let family = usize::from(def.family);
    if !may_be_base(design, def) {
        return;
    }
    if family >= firsts.len() {
        return;
    }
    firsts[family] = Some(least(firsts[family], def.place));
}

fn least(first: Option<u32>, place: u32) -> u32
    ensures { (other : ℕ) → nat_lt result other ≡ is_below first other || nat_lt place other }
{
    match first {
        None => place,
        Some(first) => first.min(place),
    }
}

// It may be the base definition of its family.
fn may_be_base(design: &Design, def: &Def) -> bool
    ensures { result ≡ spec.may_be_base design.now (slice_get design.now.families def.now.family) def.now }
{
    match design.families.as_slice().get(usize::from(def.family)) {
        None => false,
        Some(family) => {
            if family.is_abstract {
                def.layer.is_some()
            } else {
                def.layer.is_none()
            }
        }
    }
}

// Where what is said twice is said first.
ghost use Rattle.std.specs.Prelude.{◌≡◌, [], ◌++◌, map, IfOk, OnOk};
ghost use Rattle.std.specs.List.{flat_map};
ghost use Rattle.std.specs.Str.{bytes_eq};
ghost use Rattle.smv_first_fault.specs.Firsts.{least};
ghost use Rattle.law_obligations.specs.Units.{units_of};
ghost use Rattle.law_uses.specs.Choices as choices;
ghost use Rattle.smv_references.specs.Again.{same_key};
ghost use Rattle.smv_choices.specs.Held.{AreTables};
ghost use Rattle.smv_choices.specs.Parts as parts;
ghost use Rattle.smv_choices.specs.Readings.{reading, reading_in, pair_of};
ghost use Rattle.smv_look_uses.specs.Chosen as spec;
ghost use Rattle.smv_look_uses.specs.Chosen.{same_before};

use crate::firsts::{push_before, push_names_before};
use crate::leaves::leaf_names;
use smv_choices::own::own_map;
use smv_choices::readings::{Proved, Reading, all_readings};
use smv_choices::tables::{Tables, make_tables};
use smv_choices::twice::{claim_keys, family_keys, map_keys, set_names};
use smv_core::flat::{Assumed, Design, Leaf, Pick, Unit};
use smv_core::tree::{Text, Use};
use smv_design::design;
use smv_first_fault::places::first_of;
use smv_flatten::flatten::flatten;
use smv_mentions::pieces::pieces;
use smv_plans::units::units;
use smv_splits::unit_leaves;
use std::alloc::{AllocError, Global};

// Maps.
fn push_maps(
    alloc: Global,
    out: &mut Vec<u32>,
    picks: &[(u32, Pick)],
    at: u32,
) -> Result<(), AllocError>
    ensures { OnOk result (out.new.items ≡ out.old.items ++ same_before at same_key [] (parts.map_keys picks.now)) }
{
    let keys = map_keys(alloc, picks)?;
    push_before(alloc, out, keys.as_slice(), at)
}

// Choices of one family for a leaf, besides its own map.
fn push_families(
    alloc: Global,
    out: &mut Vec<u32>,
    tables: &Tables,
    units: &[Unit],
    leaf: &Leaf,
    picks: &[(u32, Pick)],
    at: u32,
) -> Result<(), AllocError>
    ensures { OnOk result (out.new.items ≡ out.old.items ++ same_before at same_key [] (parts.family_keys (choices.own_map tables.now.design.now units.now leaf.now) picks.now)) }
{
    let own = own_map(tables.design, units, leaf);
    let keys = family_keys(alloc, own, picks)?;
    push_before(alloc, out, keys.as_slice(), at)
}

// The same for all leaves that are proved.
#[tactic(auto, using(smv_mentions::proofs::Notes::noting))]
fn push_all_families(
    alloc: Global,
    out: &mut Vec<u32>,
    tables: &Tables,
    units: &[Unit],
    proved: &[Proved],
    picks: &[(u32, Pick)],
    at: u32,
) -> Result<(), AllocError>
    ensures { OnOk result (out.new.items ≡ out.old.items ++ flat_map (λ (of, leaf). same_before at same_key [] (parts.family_keys (choices.own_map tables.now.design.now units.now leaf) picks.now)) (map pair_of proved.now)) }
{
    for x in proved {
        push_families(alloc, out, tables, units, x.leaf, picks, at)?;
    }
    Ok(())
}

// Claims.
fn push_claims(
    alloc: Global,
    out: &mut Vec<u32>,
    claims: &[(u32, Assumed)],
    at: u32,
) -> Result<(), AllocError>
    ensures { OnOk result (out.new.items ≡ out.old.items ++ same_before at same_key [] (parts.claim_keys claims.now)) }
{
    let keys = claim_keys(alloc, claims)?;
    push_before(alloc, out, keys.as_slice(), at)
}

// Braces.
fn push_sets(
    alloc: Global,
    out: &mut Vec<u32>,
    tables: &Tables,
    uses: &[Use],
    at: u32,
) -> Result<(), AllocError>
    requires { AreTables tables.now }
    ensures { OnOk result (out.new.items ≡ out.old.items ++ same_before at bytes_eq [] (parts.set_keys (parts.sets_of tables.now.design.now) uses.now)) }
{
    let names = set_names(alloc, &tables.sets, uses)?;
    push_names_before(alloc, out, names.as_slice(), at)
}

// All of these in a `using`.
fn push_said(
    alloc: Global,
    out: &mut Vec<u32>,
    tables: &Tables,
    units: &[Unit],
    x: &Reading,
    at: u32,
) -> Result<(), AllocError>
    requires { AreTables tables.now }
    ensures { OnOk result (out.new.items ≡ out.old.items ++ spec.said_before at tables.now.design.now units.now (reading x.now)) }
{
    let picks = x.found.picks.as_slice();
    push_maps(alloc, out, picks, at)?;
    push_all_families(alloc, out, tables, units, &x.proved.leaves, picks, at)?;
    push_claims(alloc, out, x.found.claims.as_slice(), at)?;
    push_sets(alloc, out, tables, x.using.uses.as_slice(), at)
}

// The same in each `using`.
#[tactic(auto, using(smv_mentions::proofs::Notes::noting))]
fn push_all_said(
    alloc: Global,
    out: &mut Vec<u32>,
    tables: &Tables,
    units: &[Unit],
    all: &[Reading],
    at: u32,
) -> Result<(), AllocError>
    requires { AreTables tables.now }
    ensures { OnOk result (out.new.items ≡ out.old.items ++ flat_map (spec.said_before at tables.now.design.now units.now) (map reading all.now)) }
{
    for x in all {
        push_said(alloc, out, tables, units, x, at)?;
    }
    Ok(())
}

// Leaves that are proved, and what each `using` says.
fn push_all(
    alloc: Global,
    out: &mut Vec<u32>,
    tables: &Tables,
    units: &[Unit],
    all: &[Reading],
    at: u32,
) -> Result<(), AllocError>
    requires { AreTables tables.now }
    ensures { OnOk result (out.new.items ≡ out.old.items ++ spec.all_before at tables.now.design.now units.now (map reading all.now)) }
{
    let names = leaf_names(alloc, all)?;
    push_names_before(alloc, out, names.as_slice(), at)?;
    push_all_said(alloc, out, tables, units, all, at)
}

// The first of some places.
#[tactic(auto, using(smv_first_fault::proofs::LeastLaws::leasts))]
fn first_place(places: &[u32]) -> Option<u32>
    ensures { result ≡ least places.now }
{
    let mut first = None;
    for place in places {
        first = first_of(first, Some(*place));
    }
    first
}

// Where that is said first which is said again at a place, in a design with these units and leaves.
fn first_with(
    alloc: Global,
    design: &Design,
    units: &[Unit],
    leaves: &[Leaf],
    at: u32,
) -> Result<Option<u32>, AllocError>
    ensures { IfOk result (λ place. place ≡ least (spec.all_before at design.now units.now (map (reading_in design.now leaves.now) design.now.uses))) }
{
    let tables = make_tables(alloc, design)?;
    let all = all_readings(alloc, &tables, leaves)?;
    let mut out = Vec::new(alloc);
    push_all(alloc, &mut out, &tables, units, all.as_slice(), at)?;
    Ok(first_place(out.as_slice()))
}

// The same in a design.
fn first_in(alloc: Global, design: &Design, at: u32) -> Result<Option<u32>, AllocError>
    ensures { IfOk result (λ place. place ≡ least (spec.all_before at design.now (units_of design.now) (spec.said_in design.now))) }
{
    let units = units(alloc, design)?;
    let leaves = unit_leaves(alloc, design, units.as_slice())?;
    first_with(alloc, design, units.as_slice(), leaves.as_slice(), at)
}

/// The design of a text.
pub fn design_in(alloc: Global, text: &Text) -> Result<Design, AllocError>
    ensures { IfOk result (λ design. design ≡ spec.design_in text.now) }
{
    let pieces = pieces(alloc, text)?;
    let flat_text = flatten(alloc, text, pieces.as_slice())?;
    design(alloc, flat_text)
}

/// Where that is said first which is said again at a place of a text.
pub fn chosen_first(alloc: Global, text: &Text, at: u32) -> Result<Option<u32>, AllocError>
    ensures { IfOk result (λ place. place ≡ spec.chosen_first text.now at) }
{
    let design = design_in(alloc, text)?;
    first_in(alloc, &design, at)
}

// The same-time set of a leaf.
ghost use Rattle.std.specs.Prelude.{◌≡◌, ◌++◌, ℕ, Some, flat_map, option_to_list, false, slice_index_or, IfOk, OnOk};
ghost use Rattle.graph_search.specs.Walks.{list_at};
ghost use Rattle.law_obligations.specs.Outlines.{claim_by, unit_in};
ghost use Rattle.law_use_times.specs.Found.{nodes_of};
ghost use Rattle.law_obligations.specs.Times.{families_assumed, families_of_unit, families_read, first_families, is_member, same_time};
ghost use Rattle.smv_unit_tables.specs.Reads.{lists, read_in};
ghost use Rattle.smv_core.specs.declared.flat.Unit.TheVariants.{Map};
ghost use Rattle.smv_use_times.specs.Tables.{AreTables, entry_of, outline};

use crate::chosen::chosen;
use crate::tables::{Proof, Tables};
use graph_search::search::{explore, see_all, unseen};
use smv_core::flat::{Assumed, Family, Guard, Unit};
use smv_unit_tables::expressions::add_read;
use std::alloc::{AllocError, Global};

/// Which families are of the same-time set of a leaf.
pub fn same_time(alloc: Global, tables: &Tables, proof: &Proof) -> Result<Vec<bool>, AllocError>
    requires { AreTables tables.now }
    ensures { IfOk result (λ marks. (x : ℕ) → slice_index_or marks.items x false ≡ is_member (same_time (outline tables.now) proof.now.place (entry_of proof.now)) x) }
{
    let nodes = nodes(tables, proof.unit);
    let first = first(alloc, tables, proof)?;
    let next = chosen(alloc, tables, nodes, proof.choice.picks.as_slice())?;
    let mut marks = unseen(alloc, nodes)?;
    let mut queue = Vec::new(alloc);
    see_all(&mut marks, &mut queue, first.as_slice())?;
    explore(
        tables.defs.as_slice(),
        next.as_slice(),
        &mut marks,
        &mut queue,
    )?;
    Ok(marks)
}

// How many numbers of families there are, with that of the unit's own family.
fn nodes(tables: &Tables, unit: Unit) -> usize
    ensures { result ≡ nodes_of tables.now.design.now (unit_in tables.now.design.now unit) }
{
    let count = tables.design.families.len();
    match unit {
        Unit::Map { def } => match tables.design.defs.as_slice().get(def as usize) {
            None => count,
            Some(found) => {
                if (found.family as usize) < count {
                    count
                } else {
                    found.family as usize + 1
                }
            }
        },
        Unit::Claim { .. } => count,
    }
}

// The families with which the set begins: the unit's, and those that the guards and the claims that are assumed read.
fn first(alloc: Global, tables: &Tables, proof: &Proof) -> Result<Vec<usize>, AllocError>
    requires { AreTables tables.now }
    ensures { IfOk result (λ first. first.items ≡ first_families (outline tables.now) proof.now.place (entry_of proof.now)) }
{
    let mut out = Vec::new(alloc);
    add_unit(&mut out, tables, proof.unit)?;
    add_guards(
        &mut out,
        tables.design.families.as_slice(),
        proof.leaf.guards.as_slice(),
    )?;
    add_claims(
        &mut out,
        tables,
        proof.place,
        proof.choice.claims.as_slice(),
    )?;
    Ok(out)
}

// What a unit reads at the time of its value, and the family of a map.
fn add_unit(out: &mut Vec<usize>, tables: &Tables, unit: Unit) -> Result<(), AllocError>
    requires { AreTables tables.now }
    ensures { OnOk result (out.new.items ≡ out.old.items ++ families_of_unit (outline tables.now) (unit_in tables.now.design.now unit)) }
{
    match unit {
        Unit::Map { def } => add_map(out, tables, def),
        Unit::Claim { claim } => add_list(out, tables.claims.as_slice(), claim as usize),
    }
}

// The family of a definition, and what it reads at the time of its value.
fn add_map(out: &mut Vec<usize>, tables: &Tables, def: u16) -> Result<(), AllocError>
    requires { AreTables tables.now }
    ensures { OnOk result (out.new.items ≡ out.old.items ++ families_of_unit (outline tables.now) (unit_in tables.now.design.now (Map def))) }
{
    match tables.design.defs.as_slice().get(def as usize) {
        None => Ok(()),
        Some(found) => {
            out.push(found.family as usize)?;
            add_list(out, tables.defs.as_slice(), def as usize)
        }
    }
}

// The list at a place of a table.
fn add_list(out: &mut Vec<usize>, table: &[Vec<usize>], place: usize) -> Result<(), AllocError>
    ensures { OnOk result (out.new.items ≡ out.old.items ++ list_at (lists table.now) (Some place)) }
{
    match table.get(place) {
        None => Ok(()),
        Some(list) => {
            out.extend_from_slice(list.as_slice())?;
            Ok(())
        }
    }
}

// What guards read.
#[tactic(auto, using(smv_unit_tables::proofs::ReadLaws::listing))]
fn add_guards(out: &mut Vec<usize>, families: &[Family], guards: &[Guard]) -> Result<(), AllocError>
    ensures { OnOk result (out.new.items ≡ out.old.items ++ flat_map (λ guard. read_in families.now guard.expr) guards.now) }
{
    for guard in guards {
        add_read(out, families, &guard.expr)?;
    }
    Ok(())
}

// What claims read that are assumed outside parentheses, other than the unit itself.
#[tactic(auto, using(smv_unit_tables::proofs::ReadLaws::listing))]
fn add_claims(
    out: &mut Vec<usize>,
    tables: &Tables,
    place: usize,
    claims: &[Assumed],
) -> Result<(), AllocError>
    requires { AreTables tables.now }
    ensures { OnOk result (out.new.items ≡ out.old.items ++ flat_map (families_assumed (outline tables.now) place) claims.now) }
{
    for used in claims {
        add_assumed(out, tables, place, *used)?;
    }
    Ok(())
}

// What one such claim reads.
fn add_assumed(
    out: &mut Vec<usize>,
    tables: &Tables,
    place: usize,
    used: Assumed,
) -> Result<(), AllocError>
    requires { AreTables tables.now }
    ensures { OnOk result (out.new.items ≡ out.old.items ++ families_assumed (outline tables.now) place used) }
{
    if used.early {
        return Ok(());
    }
    match tables.places.claim(used.claim) {
        None => Ok(()),
        Some(unit) => {
            if unit == place {
                return Ok(());
            }
            add_claim_at(out, tables, unit)
        }
    }
}

// What the unit at a place reads, where it is a claim.
fn add_claim_at(out: &mut Vec<usize>, tables: &Tables, place: usize) -> Result<(), AllocError>
    requires { AreTables tables.now }
    ensures { OnOk result (out.new.items ≡ out.old.items ++ flat_map (λ claim. families_read tables.now.design.now.families claim.body) (option_to_list (claim_by (outline tables.now) (Some place)))) }
{
    match tables.units.get(place) {
        None => Ok(()),
        Some(unit) => match unit {
            Unit::Map { .. } => Ok(()),
            Unit::Claim { claim } => add_list(out, tables.claims.as_slice(), *claim as usize),
        },
    }
}

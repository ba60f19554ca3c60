// The splits that lead to no unit, or are of what is split already.
ghost use Rattle.std.specs.Prelude.{◌≡◌, ◌++◌, false, flat_map, map, length, slice_index_or, IfOk, OnOk};
ghost use Rattle.smv_first_fault.specs.Firsts.{least};
ghost use Rattle.law_obligations.specs.Units.{units_of};
ghost use Rattle.law_splits.specs.Leaves.{named_by};
ghost use Rattle.law_splits.specs.SplitFaults as spec;
ghost use Rattle.smv_references.specs.Again.{placed};
ghost use Rattle.smv_splits.specs.Groups as parts;
ghost use Rattle.smv_splits.specs.Groups.{AreTables, next_place, leads};

use crate::groups::{Tables, group};
use crate::names::unit_name;
use graph_search::search::{explore, see_all, unseen};
use smv_core::flat::{Design, FlatSplit, Unit};
use smv_core::name::Name;
use smv_first_fault::places::{first_of, place_if};
use smv_references::again::first_name_again;
use std::alloc::{AllocError, Global};

// For each split the place of the group of what it makes, and one past all where there is none.
fn next_places(alloc: Global, tables: &Tables) -> Result<Vec<usize>, AllocError>
    ensures { IfOk result (λ next. next.items ≡ map (next_place tables.now.named (length tables.now.design.now.splits)) tables.now.design.now.splits) }
{
    let splits = tables.design.splits.as_slice();
    let mut next = Vec::new(alloc);
    for split in splits {
        next.push(tables.named.find(&split.name).unwrap_or(splits.len()))?;
    }
    Ok(next)
}

// The splits of one unit more.
fn add_splits_of(
    alloc: Global,
    out: &mut Vec<usize>,
    tables: &Tables,
    unit: Unit,
) -> Result<(), AllocError>
    requires { AreTables tables.now }
    ensures { OnOk result (out.new.items ≡ out.old.items ++ parts.splits_of_unit tables.now.design.now tables.now.named unit) }
{
    let name = unit_name(alloc, tables.design, unit)?;
    out.extend_from_slice(group(tables, &name))?;
    Ok(())
}

// The splits of units.
#[tactic(auto, using(smv_mentions::proofs::Notes::noting))]
fn splits_of_units(alloc: Global, tables: &Tables, units: &[Unit]) -> Result<Vec<usize>, AllocError>
    requires { AreTables tables.now }
    ensures { IfOk result (λ splits. splits.items ≡ flat_map (parts.splits_of_unit tables.now.design.now tables.now.named) units.now) }
{
    let mut out = Vec::new(alloc);
    for unit in units {
        add_splits_of(alloc, &mut out, tables, *unit)?;
    }
    Ok(out)
}

// Which splits lead to a unit.
fn led(alloc: Global, tables: &Tables, units: &[Unit]) -> Result<Vec<bool>, AllocError>
    requires tables { AreTables tables.now }
    requires units { units.now ≡ units_of tables.now.design.now }
    ensures { IfOk result (λ led. led.items ≡ map (leads tables.now.design.now) tables.now.design.now.splits) }
{
    let next = next_places(alloc, tables)?;
    let starts = splits_of_units(alloc, tables, units)?;
    let mut seen = unseen(alloc, tables.design.splits.len())?;
    let mut queue = Vec::new(alloc);
    see_all(&mut seen, &mut queue, &starts)?;
    explore(&tables.groups, &next, &mut seen, &mut queue)?;
    Ok(seen)
}

// Whether a split is marked.
fn is_marked(marks: &[bool], place: usize) -> bool
    ensures { result ≡ slice_index_or marks.now place false }
{
    match marks.get(place) {
        Some(mark) => *mark,
        None => false,
    }
}

// The first split that leads to no unit.
#[tactic(auto, using(smv_first_fault::proofs::LeastLaws::leasts))]
fn first_astray(design: &Design, led: &[bool]) -> Option<u32>
    requires { led.now ≡ map (leads design.now) design.now.splits }
    ensures { result ≡ least (flat_map (spec.astray design.now) design.now.splits) }
{
    let mut found = None;
    for (place, split) in design.splits.as_slice().iter().enumerate() {
        found = first_of(found, place_if(!is_marked(led, place), split.of.at));
    }
    found
}

// The names of what these splits are of, each with the place of the reference.
fn placed_names<'a>(
    alloc: Global,
    splits: &[FlatSplit],
    names: &'a [Name],
) -> Result<Vec<(u32, &'a Name)>, AllocError>
    requires { names.now ≡ map (λ split. named_by split.of) splits.now }
    ensures { IfOk result (λ out. map placed out.items ≡ map parts.place_of_split splits.now) }
{
    let mut out = Vec::new(alloc);
    for place in 0..splits.len().min(names.len()) {
        out.push((splits[place].of.at, &names[place]))?;
    }
    Ok(out)
}

// The first split of what is split before.
fn first_split_again(
    alloc: Global,
    splits: &[FlatSplit],
    names: &[Name],
) -> Result<Option<u32>, AllocError>
    requires { names.now ≡ map (λ split. named_by split.of) splits.now }
    ensures { IfOk result (λ place. place ≡ least (spec.split_again splits.now)) }
{
    let placed = placed_names(alloc, splits, names)?;
    let place = first_name_again(alloc, &placed)?;
    Ok(place)
}

/// The first place of fault 23: a split that leads to no unit, or is of what is split before.
pub fn first_lost(
    alloc: Global,
    tables: &Tables,
    names: &[Name],
    units: &[Unit],
) -> Result<Option<u32>, AllocError>
    requires tables { AreTables tables.now }
    requires names { names.now ≡ map (λ split. named_by split.of) tables.now.design.now.splits }
    requires units { units.now ≡ units_of tables.now.design.now }
    ensures { IfOk result (λ place. place ≡ parts.first_lost tables.now.design.now) }
{
    let led = led(alloc, tables, units)?;
    let again = first_split_again(alloc, tables.design.splits.as_slice(), names)?;
    Ok(first_of(first_astray(tables.design, &led), again))
}

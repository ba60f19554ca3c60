// What splits show of the parameters of what they are of.
ghost use Rattle.std.specs.Prelude.{◌≡◌, ◌++◌, flat_map, length, map, option_copied, option_to_list, slice_get, take, IfOk, OnOk};
ghost use Rattle.smv_mentions.specs.Scopes.{first_of_places};
ghost use Rattle.smv_first_fault.specs.Firsts.{least};
ghost use Rattle.law_splits.specs.Chains as chains;
ghost use Rattle.smv_splits.specs.Groups.{AreTables};
ghost use Rattle.smv_split_faults.specs.Waiting as spec;
ghost use Rattle.smv_split_faults.specs.Waiting.{held, waits, following};

use crate::types::first_shown;
use smv_core::flat::{FlatSplit, Simple, Unit};
use smv_core::name::Name;
use smv_first_fault::places::first_of;
use smv_splits::groups::{Tables, group};
use smv_splits::names::unit_name;
use smv_splits::params::{add_types, own_types};
use std::alloc::{AllocError, Global};

/// A split that waits to be met, with how many parameters stand before it, and how many splits at most are followed behind it.
#[derive(Clone, Copy)]
pub struct Waiting<'a> {
    pub split: &'a FlatSplit,
    pub known: usize,
    pub left: usize,
}

/// A walk over all splits that a unit leads to: the types of the parameters before the next one, the splits that wait, of which the last is next, and the first
/// place found.
#[derive(Drop)]
pub struct Walk<'a> {
    pub types: Vec<Simple>,
    pub waiting: Vec<Waiting<'a>>,
    pub found: Option<u32>,
}

// A split more, if there is one.
fn add<'a>(
    out: &mut Vec<Waiting<'a>>,
    split: Option<&'a FlatSplit>,
    known: usize,
    left: usize,
) -> Result<(), AllocError>
    ensures { OnOk result (map held out.new.items ≡ map held out.old.items ++ map (waits known left) (option_to_list (option_copied split.entry))) }
{
    match split {
        Some(split) => {
            out.push(Waiting { split, known, left })?;
            Ok(())
        }
        None => Ok(()),
    }
}

// The split of a number, if there is one.
fn split_at(splits: &[FlatSplit], number: usize) -> Option<&FlatSplit>
    ensures { option_copied result ≡ slice_get splits.now number }
{
    splits.get(number)
}

// The splits with these numbers more.
fn add_all<'a>(
    out: &mut Vec<Waiting<'a>>,
    splits: &'a [FlatSplit],
    numbers: &[usize],
    known: usize,
    left: usize,
) -> Result<(), AllocError>
    ensures { OnOk result (map held out.new.items ≡ map held out.old.items ++ map (waits known left) (spec.splits_at splits.now numbers.now)) }
{
    for number in numbers {
        let split = split_at(splits, *number);
        add(out, split, known, left)?;
    }
    Ok(())
}

// The splits of what has a name, where so many are followed.
fn add_following<'a>(
    out: &mut Vec<Waiting<'a>>,
    tables: &'a Tables,
    name: &Name,
    known: usize,
    left: usize,
) -> Result<(), AllocError>
    requires { AreTables tables.now }
    ensures { OnOk result (map held out.new.items ≡ map held out.old.items ++ following tables.now.design.now known left name.now) }
{
    match left.checked_sub(1) {
        Some(left) => {
            let splits = tables.design.splits.as_slice();
            add_all(out, splits, group(tables, name), known, left)?;
            Ok(())
        }
        None => Ok(()),
    }
}

// Meets a split, and lets those of what it makes wait.
fn meet<'a>(tables: &'a Tables, walk: &mut Walk<'a>, next: Waiting<'a>) -> Result<(), AllocError>
    requires { AreTables tables.now }
    ensures types { OnOk result (walk.new.types.items ≡ take next.entry.known walk.old.types.items ++ chains.new_types next.entry.split.now) }
    ensures found { OnOk result (walk.new.found ≡ first_of_places walk.old.found (least (chains.mismatches_by next.entry.split.now (take next.entry.known walk.old.types.items)))) }
    ensures waiting { OnOk result (map held walk.new.waiting.items ≡ map held walk.old.waiting.items ++ following tables.now.design.now (length walk.new.types.items) next.entry.left next.entry.split.now.name) }
{
    walk.types.truncate(next.known);
    walk.found = first_of(walk.found, first_shown(next.split, &walk.types));
    add_types(&mut walk.types, next.split)?;
    let known = walk.types.len();
    add_following(
        &mut walk.waiting,
        tables,
        &next.split.name,
        known,
        next.left,
    )?;
    Ok(())
}

// The first place that splits of what has a name and parameters of these types show.
fn first_of_name(
    alloc: Global,
    tables: &Tables,
    name: &Name,
    types: Vec<Simple>,
) -> Result<Option<u32>, AllocError>
    requires { AreTables tables.now }
    ensures { IfOk result (λ place. place ≡ least (chains.shown tables.now.design.now (length tables.now.design.now.splits) name.now types.items)) }
{
    let known = types.len();
    let mut walk = Walk {
        types,
        waiting: Vec::new(alloc),
        found: None,
    };
    add_following(
        &mut walk.waiting,
        tables,
        name,
        known,
        tables.design.splits.len(),
    )?;
    while let Some(next) = walk.waiting.pop() {
        meet(tables, &mut walk, next)?;
    }
    Ok(walk.found)
}

// The first place that the splits of a unit show.
fn first_of_unit(alloc: Global, tables: &Tables, unit: Unit) -> Result<Option<u32>, AllocError>
    requires { AreTables tables.now }
    ensures { IfOk result (λ place. place ≡ least (spec.shown_of_unit tables.now.design.now unit)) }
{
    let name = unit_name(alloc, tables.design, unit)?;
    let types = own_types(alloc, tables.design, unit)?;
    let place = first_of_name(alloc, tables, &name, types)?;
    Ok(place)
}

/// The first place of fault 24 that splits show beside the parameters of what they are of.
#[tactic(auto, using(smv_first_fault::proofs::LeastLaws::leasts))]
pub(crate) fn first_mismatch(
    alloc: Global,
    tables: &Tables,
    units: &[Unit],
) -> Result<Option<u32>, AllocError>
    requires { AreTables tables.now }
    ensures { IfOk result (λ place. place ≡ least (flat_map (spec.shown_of_unit tables.now.design.now) units.now)) }
{
    let mut found = None;
    for unit in units {
        let place = first_of_unit(alloc, tables, *unit)?;
        found = first_of(found, place);
    }
    Ok(found)
}

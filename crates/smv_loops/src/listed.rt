// The cells of a design with their ranks.
ghost use Rattle.std.specs.Prelude.{◌≡◌, ◌++◌, ◌<◌, map, slice_get, Some, IfOk, OnOk};
ghost use Rattle.std.specs.List.Sorted.{IsNonDecreasingBy, IsPermutation};
ghost use Rattle.smv_core.specs.declared.flat.Family.{Family};
ghost use Rattle.smv_loops.specs.Cells as spec;
ghost use Rattle.smv_loops.specs.declared.listed.Listed.{Listed};
ghost use Rattle.smv_loops.specs.Numbers.{AreBases};
ghost use Rattle.smv_loops.specs.Order.{cells_from, cells_in, listed};

use crate::cells::{count, step};
use crate::ranks::rank;
use crate::ways::every_way;
use smv_core::flat::{Cell, Family, Simple};
use smv_core::seq::Seq;
use std::alloc::{AllocError, Global};

/// A cell with its rank.
#[derive(Drop)]
pub struct Listed {
    pub rank: usize,
    pub cell: Cell,
}

// The place of an index among those that its type has.
fn digit(over: Simple, index: Option<u8>) -> usize
    ensures { result ≡ spec.digit over index }
{
    match over {
        Simple::Range { low, .. } => match index {
            Some(k) => usize::from(k.saturating_sub(low)),
            None => 0,
        },
        Simple::Enum { .. } => 0,
        Simple::Set { .. } => 0,
    }
}

// The place of a list of indexes.
fn place(over: &[Simple], indexes: &[Option<u8>]) -> Result<usize, AllocError>
    ensures { IfOk result (λ at. at ≡ spec.place over.now indexes.now) }
{
    match over {
        [] => Ok(0),
        [first, over @ ..] => match indexes {
            [] => Ok(0),
            [index, more @ ..] => {
                let size = count(over)?;
                let rest = place(over, more)?;
                step(rest, digit(*first, *index), size)
            }
        },
    }
}

// A cell of a family, with its rank, where the family's numbers begin at this one.
fn list_cell(
    alloc: Global,
    families: &[Family],
    base: usize,
    ranks: &[usize],
    family: u16,
    list: &[Option<u8>],
) -> Result<Listed, AllocError>
    requires { base ≡ spec.base families.now family }
    ensures { (f : Family) → slice_get families.now family ≡ Some f → IfOk result (λ cell. cell ≡ listed families.now ranks.now (record { family = family; indexes = list.now })) }
{
    let Some(shape) = families.get(usize::from(family)) else {
        return Err(AllocError);
    };
    let place = place(shape.over.as_slice(), list)?;
    let number = base.checked_add(place).ok_or(AllocError)?;
    let indexes = Seq::from_vec(Vec::from_slice(alloc, list)?);
    Ok(Listed {
        rank: rank(ranks, number),
        cell: Cell { family, indexes },
    })
}

// The cells of the family of this number, behind those that are there.
fn list_family(
    alloc: Global,
    families: &[Family],
    bases: &[usize],
    ranks: &[usize],
    family: u16,
    out: &mut Vec<Listed>,
) -> Result<(), AllocError>
    requires { AreBases families.now bases.now }
    ensures { (f : Family) → slice_get families.now family ≡ Some f → OnOk result (out.new.items ≡ out.old.items ++ map (listed families.now ranks.now) (cells_in family f)) }
{
    let place = usize::from(family);
    let Some(shape) = families.get(place) else {
        return Err(AllocError);
    };
    let base = bases[place];
    let lists = every_way(alloc, shape.over.as_slice())?;
    for list in &lists {
        let cell = list_cell(alloc, families, base, ranks, family, list.as_slice())?;
        out.push(cell)?;
    }
    Ok(())
}

/// The cells of all families, in their order.
pub fn list_all(
    alloc: Global,
    families: &[Family],
    bases: &[usize],
    ranks: &[usize],
) -> Result<Vec<Listed>, AllocError>
    requires { AreBases families.now bases.now }
    ensures { IfOk result (λ all. all.items ≡ map (listed families.now ranks.now) (cells_from 0 families.now)) }
{
    let mut all = Vec::new(alloc);
    for place in 0..families.len() {
        if place > usize::from(u16::MAX) {
            return Err(AllocError);
        }
        list_family(alloc, families, bases, ranks, place as u16, &mut all)?;
    }
    Ok(all)
}

/// These cells, sorted by their ranks.
pub fn sorted(listed: Vec<Listed>) -> Result<Vec<Listed>, AllocError>
    ensures same { IfOk result (λ sorted. IsPermutation listed.items sorted.items) }
    ensures up { IfOk result (λ sorted. IsNonDecreasingBy (λ (x : Listed). x.rank) sorted.items) }
{
    let mut sorted = listed;
    sorted.sort_by_key(|x| x.rank)?;
    Ok(sorted)
}

/// The cells alone.
pub fn cells_of(alloc: Global, listed: Vec<Listed>) -> Result<Seq<Cell>, AllocError>
    ensures { IfOk result (λ cells. cells ≡ map (λ (x : Listed). x.cell) listed.items) }
{
    let mut cells = Seq::new(alloc);
    for x in listed {
        let Listed { cell, .. } = x;
        cells.push(cell)?;
    }
    Ok(cells)
}

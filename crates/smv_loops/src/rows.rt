// Rows: the cells of a family with some indexes, noted once for all assignments that read them.
ghost use Rattle.std.specs.Prelude.{◌≡◌, ◌+◌, ◌<◌, ◌++◌, List, map, flat_map, length, true, slice_get, IfOk, IfSome, OnOk};
ghost use Rattle.std.specs.List.{All};
ghost use Rattle.smv_core.specs.Assignments.{fixed};
ghost use Rattle.law_designs.specs.Loops.{at_index, cells_of};
ghost use Rattle.smv_indexes.specs.Indexes.{index_of, outcome_of};
ghost use Rattle.smv_loops.specs.Cells.{picked, number_in, reads_of};
ghost use Rattle.smv_loops.specs.Edges.{AreRowLinks, total};
ghost use Rattle.smv_loops.specs.Held.{reference_of};
ghost use Rattle.smv_loops.specs.Numbers.{AreBases};
ghost use Rattle.smv_loops.specs.Rows.{IsRow, row_at, stands_for};

use crate::cells::{all_known, behind, cells_at, count, is_constant, step};
use crate::ranks::Links;
use crate::reading::{Held, Read};
use smv_core::flat::{Family, Simple};
use smv_indexes::Index;
use std::alloc::{AllocError, Global};

/// A family and indexes, with the numbers of all cells that have them.
#[derive(Drop)]
pub struct Row {
    pub family: u16,
    pub indexes: Vec<Index>,
    pub cells: Vec<usize>,
}

/// Rows, and for each number of a cell the places of those rows of which it is the least.
#[derive(Drop)]
pub struct Rows {
    pub rows: Vec<Row>,
    pub places: Vec<Vec<usize>>,
}

/// The rows that these assignments read, where their indexes are not all constants. Nothing rests on which there are.
pub(crate) fn rows_read(
    alloc: Global,
    families: &[Family],
    bases: &[usize],
    held: &[Held],
) -> Result<Rows, AllocError>
    requires { AreBases families.now bases.now }
    ensures { IfOk result (λ rows. All (IsRow families.now) rows.rows.items) }
{
    let mut rows = Vec::new(alloc);
    let mut places = no_places(alloc, bases)?;
    for x in held {
        for read in &x.reads {
            note(alloc, &mut rows, &mut places, families, bases, *read)?;
        }
    }
    Ok(Rows { rows, places })
}

// No place for any cell.
fn no_places(alloc: Global, bases: &[usize]) -> Result<Vec<Vec<usize>>, AllocError> {
    let cells = bases.last().copied().unwrap_or(0);
    let mut places = Vec::with_capacity(alloc, cells)?;
    for _ in 0..cells {
        places.push(Vec::new(alloc))?;
    }
    Ok(places)
}

// The row of a reference is noted, if it has more than one cell and is not there.
fn note(
    alloc: Global,
    rows: &mut Vec<Row>,
    places: &mut Vec<Vec<usize>>,
    families: &[Family],
    bases: &[usize],
    read: Read,
) -> Result<(), AllocError>
    requires bases { AreBases families.now bases.now }
    requires rows { All (IsRow families.now) rows.old.items }
    ensures { OnOk result (All (IsRow families.now) rows.new.items) }
{
    let indexes = all_known(alloc, read.indexes)?;
    if indexes.iter().all(|index| is_constant(*index)) {
        return Ok(());
    }
    let least = least(families, bases, read.family, indexes.as_slice())?;
    let Some(list) = places.get_mut(least) else {
        return Ok(());
    };
    if found(
        rows.as_slice(),
        list.as_slice(),
        read.family,
        indexes.as_slice(),
    )
    .is_some()
    {
        return Ok(());
    }
    list.push(rows.len())?;
    add(alloc, rows, families, bases, read.family, indexes)
}

// One more row.
fn add(
    alloc: Global,
    rows: &mut Vec<Row>,
    families: &[Family],
    bases: &[usize],
    family: u16,
    indexes: Vec<Index>,
) -> Result<(), AllocError>
    requires bases { AreBases families.now bases.now }
    requires rows { All (IsRow families.now) rows.old.items }
    ensures { OnOk result (All (IsRow families.now) rows.new.items) }
{
    let mut cells = Vec::new(alloc);
    cells_at(&mut cells, families, bases, family, indexes.as_slice())?;
    rows.push(Row {
        family,
        indexes,
        cells,
    })?;
    Ok(())
}

// The least number that a cell of a family with these indexes may have. It tells rows apart, and nothing rests on it.
fn least(
    families: &[Family],
    bases: &[usize],
    family: u16,
    indexes: &[Index],
) -> Result<usize, AllocError> {
    let place = usize::from(family);
    match families.get(place) {
        None => Ok(0),
        Some(family) => {
            let base = bases.get(place).copied().unwrap_or(0);
            least_at(family.over.as_slice(), indexes, base)
        }
    }
}

fn least_at(over: &[Simple], indexes: &[Index], start: usize) -> Result<usize, AllocError> {
    match over {
        [] => Ok(start),
        [first, over @ ..] => match indexes {
            [] => Ok(start),
            [index, more @ ..] => {
                let size = count(over)?;
                let next = step(start, first_digit(*first, *index), size)?;
                least_at(over, more, next)
            }
        },
    }
}

fn first_digit(over: Simple, index: Index) -> usize {
    match (over, index) {
        (Simple::Range { low, .. }, Index::Fixed { value: Some(value) }) => {
            usize::from(value.saturating_sub(u16::from(low)))
        }
        _ => 0,
    }
}

/// The place of the row of a family with these indexes, if it is at one of these places.
pub fn found(rows: &[Row], places: &[usize], family: u16, indexes: &[Index]) -> Option<usize>
    ensures place { IfSome result (λ place. place < length rows.now) }
    ensures cells { (families : List Family) → All (IsRow families) rows.now → IfSome result (λ place. row_at rows.now place ≡ map (number_in families) (cells_of (slice_get families family) family (map index_of indexes.now))) }
{
    for place in places {
        if is_at(rows, *place, family, indexes) {
            return Some(*place);
        }
    }
    None
}

// The row at a place is that of a family with these indexes.
fn is_at(rows: &[Row], place: usize, family: u16, indexes: &[Index]) -> bool
    ensures place { result ≡ true → place < length rows.now }
    ensures cells { (families : List Family) → All (IsRow families) rows.now → result ≡ true → row_at rows.now place ≡ map (number_in families) (cells_of (slice_get families family) family (map index_of indexes.now)) }
{
    match rows.get(place) {
        None => false,
        Some(row) => is_of(row, family, indexes),
    }
}

// A row is that of a family with these indexes.
fn is_of(row: &Row, family: u16, indexes: &[Index]) -> bool
    ensures { (families : List Family) → IsRow families row.now → result ≡ true → row.now.cells.items ≡ map (number_in families) (cells_of (slice_get families family) family (map index_of indexes.now)) }
{
    if row.family != family {
        return false;
    }
    are_alike(row.indexes.as_slice(), indexes)
}

// These indexes may be the same numbers.
fn are_alike(left: &[Index], right: &[Index]) -> bool
    ensures { result ≡ true → (over : List Simple) → picked over (map index_of left.now) ≡ picked over (map index_of right.now) }
{
    match left {
        [] => right.is_empty(),
        [x, xs @ ..] => match right {
            [] => false,
            [y, ys @ ..] => {
                if !is_alike(*x, *y) {
                    return false;
                }
                are_alike(xs, ys)
            }
        },
    }
}

// Two indexes may be the same numbers.
fn is_alike(left: Index, right: Index) -> bool
    ensures { result ≡ true → (over : Simple) → at_index over (index_of left) ≡ at_index over (index_of right) }
{
    match left {
        Index::Fixed { value } => has_value(right, value),
        Index::Bare { .. } => !is_constant(right),
        Index::Computed => !is_constant(right),
    }
}

// An index is a constant with this number, or without one.
fn has_value(index: Index, value: Option<u16>) -> bool
    ensures { result ≡ true → index_of index ≡ fixed (outcome_of value) }
{
    match index {
        Index::Fixed { value: other } => other == value,
        Index::Bare { .. } => false,
        Index::Computed => false,
    }
}

/// The numbers that stand for the cells of a reference: that of their row, or else those of the cells.
pub fn nodes(
    alloc: Global,
    out: &mut Vec<usize>,
    families: &[Family],
    bases: &[usize],
    rows: &Rows,
    read: Read,
) -> Result<(), AllocError>
    requires bases { AreBases families.now bases.now }
    requires rows { All (IsRow families.now) rows.now.rows.items }
    ensures stand { OnOk result (flat_map (stands_for families.now rows.now.rows.items) out.new.items ≡ flat_map (stands_for families.now rows.now.rows.items) out.old.items ++ map (number_in families.now) (reads_of families.now (reference_of read.entry))) }
    ensures below { All (λ t. t < total families.now + length rows.now.rows.items) out.old.items → OnOk result (All (λ t. t < total families.now + length rows.now.rows.items) out.new.items) }
{
    let indexes = all_known(alloc, read.indexes)?;
    let cells = bases[families.len()];
    match find(families, bases, rows, read.family, indexes.as_slice()) {
        Some(place) => {
            let node = behind(cells, place)?;
            out.push(node)?;
            Ok(())
        }
        None => cells_at(out, families, bases, read.family, indexes.as_slice()),
    }
}

// The place of the row of a family with these indexes, if there is one.
fn find(
    families: &[Family],
    bases: &[usize],
    rows: &Rows,
    family: u16,
    indexes: &[Index],
) -> Option<usize>
    ensures place { IfSome result (λ place. place < length rows.now.rows.items) }
    ensures cells { All (IsRow families.now) rows.now.rows.items → IfSome result (λ place. row_at rows.now.rows.items place ≡ map (number_in families.now) (cells_of (slice_get families.now family) family (map index_of indexes.now))) }
{
    let Ok(least) = least(families, bases, family, indexes) else {
        return None;
    };
    match rows.places.get(least) {
        None => None,
        Some(places) => found(rows.rows.as_slice(), places.as_slice(), family, indexes),
    }
}

/// The links of rows, of which the first has this number.
pub(crate) fn row_links(
    alloc: Global,
    families: &[Family],
    cells: usize,
    rows: &[Row],
) -> Result<Vec<Links>, AllocError>
    requires cells { cells ≡ total families.now }
    requires rows { All (IsRow families.now) rows.now }
    ensures count { IfOk result (λ links. length links.items ≡ length rows.now) }
    ensures links { IfOk result (λ links. AreRowLinks (stands_for families.now rows.now) cells links.items) }
{
    let mut links = Vec::new(alloc);
    for row in rows {
        let node = behind(cells, links.len())?;
        let mut from = Vec::new(alloc);
        from.push(node)?;
        let to = Vec::from_slice(alloc, row.cells.as_slice())?;
        links.push(Links { from, to })?;
    }
    Ok(links)
}

// The cells of a design by their numbers.
ghost use Rattle.std.specs.Prelude.{◌≡◌, ◌+◌, ◌*◌, ◌∷◌, ◌++◌, ◌<◌, Some, map, length, slice_get, IfOk, OnOk};
ghost use Rattle.std.specs.List.{All};
ghost use Rattle.smv_core.specs.Assignments.{computed, fits, fixed};
ghost use Rattle.smv_core.specs.Values.{number};
ghost use Rattle.law_designs.specs.Loops as loops;
ghost use Rattle.law_designs.specs.Loops.{at_index, cells_of};
ghost use Rattle.smv_indexes.specs.Indexes.{index_of};
ghost use Rattle.smv_loops.specs.Cells.{every, place, number_in};
ghost use Rattle.smv_loops.specs.Edges.{AreLinks, total};
ghost use Rattle.smv_loops.specs.Held.{index_in, reading_of};
ghost use Rattle.smv_loops.specs.Numbers.{AreBases, digit_places, places, range_places, single_places};
ghost use Rattle.smv_loops.specs.Rows.{IsRow, stands_for};

use crate::ranks::Links;
use crate::reading::Held;
use crate::rows::{Rows, nodes};
use smv_core::flat::{Family, FlatExpr, Simple};
use smv_indexes::{Index, known};
use std::alloc::{AllocError, Global};

/// Where the numbers of each family begin, and at the end how many there are.
#[tactic(auto, using(crate::proofs::NumberLaws::counts))]
pub fn bases(alloc: Global, families: &[Family]) -> Result<Vec<usize>, AllocError>
    ensures { IfOk result (λ bases. AreBases families.now bases.items) }
{
    let mut bases = Vec::new(alloc);
    let mut total: usize = 0;
    for family in families {
        bases.push(total)?;
        let count = count(family.over.as_slice())?;
        total = total.checked_add(count).ok_or(AllocError)?;
    }
    bases.push(total)?;
    Ok(bases)
}

/// How many lists of indexes there are, with all fronts.
#[tactic(auto, using(crate::proofs::NumberLaws::counts))]
pub fn count(over: &[Simple]) -> Result<usize, AllocError>
    ensures { IfOk result (λ count. count ≡ length (every over.now)) }
{
    match over {
        [] => Ok(1),
        [first, more @ ..] => {
            let rest = count(more)?;
            step(0, choices(*first), rest)
        }
    }
}

// How many indexes a type has.
#[tactic(auto, using(crate::proofs::NumberLaws::counts))]
fn choices(over: Simple) -> usize
    ensures { result ≡ length (at_index over computed) }
{
    match over {
        Simple::Range { low, high } => (usize::from(high) + 1).saturating_sub(usize::from(low)),
        _ => 1,
    }
}

/// The number behind a start, a front and so many whole lists.
pub fn step(start: usize, digit: usize, size: usize) -> Result<usize, AllocError>
    ensures { IfOk result (λ next. next ≡ start + (1 + digit * size)) }
{
    let turns = digit.checked_mul(size).ok_or(AllocError)?;
    let behind = turns.checked_add(1).ok_or(AllocError)?;
    start.checked_add(behind).ok_or(AllocError)
}

/// The number so many behind a start.
pub fn behind(start: usize, many: usize) -> Result<usize, AllocError>
    ensures { IfOk result (λ next. next ≡ start + many) }
{
    start.checked_add(many).ok_or(AllocError)
}

/// What an assignment concerns and reads: the numbers of its cells, and those that stand for the cells that it reads.
pub fn links(
    alloc: Global,
    families: &[Family],
    bases: &[usize],
    rows: &Rows,
    held: &Held,
) -> Result<Links, AllocError>
    requires bases { AreBases families.now bases.now }
    requires rows { All (IsRow families.now) rows.now.rows.items }
    ensures { IfOk result (λ links. AreLinks families.now (stands_for families.now rows.now.rows.items) (total families.now + length rows.now.rows.items) links (reading_of held.now)) }
{
    let left = all_known(alloc, held.left)?;
    let mut from = Vec::new(alloc);
    cells_at(&mut from, families, bases, held.family, left.as_slice())?;
    let mut to = Vec::new(alloc);
    for read in &held.reads {
        nodes(alloc, &mut to, families, bases, rows, *read)?;
    }
    Ok(Links { from, to })
}

/// The numbers of a family's cells with these indexes.
pub fn cells_at(
    out: &mut Vec<usize>,
    families: &[Family],
    bases: &[usize],
    family: u16,
    indexes: &[Index],
) -> Result<(), AllocError>
    requires { AreBases families.now bases.now }
    ensures { OnOk result (out.new.items ≡ out.old.items ++ map (number_in families.now) (cells_of (slice_get families.now family) family (map index_of indexes.now))) }
{
    let place = usize::from(family);
    let Some(shape) = families.get(place) else {
        return Ok(());
    };
    numbers(out, shape.over.as_slice(), indexes, bases[place])
}

/// What is known of each index.
#[tactic(auto, unfolding(crate::specs::Held::index_in))]
pub(crate) fn all_known(alloc: Global, indexes: &[FlatExpr]) -> Result<Vec<Index>, AllocError>
    ensures { IfOk result (λ known. map index_of known.items ≡ map index_in indexes.now) }
{
    let mut all = Vec::new(alloc);
    for x in indexes {
        all.push(known(x))?;
    }
    Ok(all)
}

// The numbers of the cells with these indexes, from this number on.
#[cycle(numbering)]
fn numbers(
    out: &mut Vec<usize>,
    over: &[Simple],
    indexes: &[Index],
    start: usize,
) -> Result<(), AllocError>
    ensures { OnOk result (out.new.items ≡ out.old.items ++ places over.now (map index_of indexes.now) start) }
{
    match over {
        [] => {
            out.push(start)?;
            Ok(())
        }
        [first, over @ ..] => match indexes {
            [] => {
                out.push(start)?;
                Ok(())
            }
            [index, more @ ..] => first_numbers(out, *first, over, *index, more, start),
        },
    }
}

// The same, where there is a first index.
#[cycle(numbering)]
fn first_numbers(
    out: &mut Vec<usize>,
    first: Simple,
    over: &[Simple],
    index: Index,
    more: &[Index],
    start: usize,
) -> Result<(), AllocError>
    ensures { OnOk result (out.new.items ≡ out.old.items ++ places (first ∷ over.now) (index_of index ∷ map index_of more.now) start) }
{
    match first {
        Simple::Range { low, high } => { range_numbers(out, low, high, over, index, more, start) }
        Simple::Enum { .. } => single_numbers(out, over, index, more, start),
        Simple::Set { .. } => single_numbers(out, over, index, more, start),
    }
}

// The same, where the first index has no value.
#[cycle(numbering)]
fn single_numbers(
    out: &mut Vec<usize>,
    over: &[Simple],
    index: Index,
    more: &[Index],
    start: usize,
) -> Result<(), AllocError>
    ensures { OnOk result (out.new.items ≡ out.old.items ++ single_places (index_of index) over.now (map index_of more.now) start) }
{
    if is_constant(index) {
        return Ok(());
    }
    let next = step(start, 0, 0)?;
    numbers(out, over, more, next)
}

// The same, where the first index is one over a range.
#[cycle(numbering)]
fn range_numbers(
    out: &mut Vec<usize>,
    low: u8,
    high: u8,
    over: &[Simple],
    index: Index,
    more: &[Index],
    start: usize,
) -> Result<(), AllocError>
    ensures { OnOk result (out.new.items ≡ out.old.items ++ range_places low high (index_of index) over.now (map index_of more.now) start) }
{
    match index {
        Index::Fixed { value: Some(value) } => {
            fixed_numbers(out, low, high, value, over, more, start)
        }
        _ => each_number(out, low, high, over, index, more, start),
    }
}

// The same, where the first index is a constant: no other number of the range is looked at.
#[cycle(numbering)]
#[tactic(auto, using(crate::proofs::NumberLaws::fixing))]
fn fixed_numbers(
    out: &mut Vec<usize>,
    low: u8,
    high: u8,
    value: u16,
    over: &[Simple],
    more: &[Index],
    start: usize,
) -> Result<(), AllocError>
    ensures { OnOk result (out.new.items ≡ out.old.items ++ range_places low high (fixed (Some (number value))) over.now (map index_of more.now) start) }
{
    let k = usize::from(value);
    let first = usize::from(low);
    if k < first {
        return Ok(());
    }
    if k > usize::from(high) {
        return Ok(());
    }
    let index = Index::Fixed { value: Some(value) };
    numbers_at(out, k, k - first, over, index, more, start)
}

// The same, where each number of the range is looked at.
#[cycle(numbering)]
fn each_number(
    out: &mut Vec<usize>,
    low: u8,
    high: u8,
    over: &[Simple],
    index: Index,
    more: &[Index],
    start: usize,
) -> Result<(), AllocError>
    ensures { OnOk result (out.new.items ≡ out.old.items ++ range_places low high (index_of index) over.now (map index_of more.now) start) }
{
    let first = usize::from(low);
    let end = first.max(usize::from(high) + 1);
    for k in first..end {
        numbers_at(out, k, k - first, over, index, more, start)?;
    }
    Ok(())
}

// Those that have this number at the first index.
#[cycle(numbering)]
fn numbers_at(
    out: &mut Vec<usize>,
    k: usize,
    digit: usize,
    over: &[Simple],
    index: Index,
    more: &[Index],
    start: usize,
) -> Result<(), AllocError>
    ensures { OnOk result (out.new.items ≡ out.old.items ++ digit_places digit (index_of index) over.now (map index_of more.now) start k) }
{
    if !does_fit(index, k) {
        return Ok(());
    }
    let size = count(over)?;
    let next = step(start, digit, size)?;
    numbers(out, over, more, next)
}

/// An index may have this value.
pub fn does_fit(index: Index, k: usize) -> bool
    ensures { result ≡ fits (index_of index) (number k) }
{
    match index {
        Index::Fixed { value: Some(value) } => usize::from(value) == k,
        Index::Fixed { value: None } => false,
        _ => true,
    }
}

/// An index is a constant.
pub fn is_constant(index: Index) -> bool
    ensures { result ≡ loops.is_constant (index_of index) }
{
    matches!(index, Index::Fixed { .. })
}

// Loops without delay.
ghost use Rattle.std.specs.Prelude.{◌≡◌, ℕ, ◌+◌, ◌<◌, ◌≤◌, List, length, map, take, flat_map, true, false, None, Some, IfOk, OnOk, MatchOption};
ghost use Rattle.std.specs.List.{All};
ghost use Rattle.std.specs.List.Sorted.{IsPermutation};
ghost use Rattle.law_designs.specs.FirstFault.{first_fault_of_loops};
ghost use Rattle.law_designs.specs.Loops as spec;
ghost use Rattle.law_designs.specs.Reading.{Reading};
ghost use Rattle.smv_loops.specs.Edges.{AreAdded, AreShown, IsFirst, edges_at, total};
ghost use Rattle.smv_loops.specs.Held.{reading_of};
ghost use Rattle.smv_loops.specs.Numbers.{AreBases};
ghost use Rattle.smv_loops.specs.Order.{AreAfterTheirReads, IfFault, IsOrder, cells_from};
ghost use Rattle.smv_loops.specs.Ranks.{AreBelow, rank};
ghost use Rattle.smv_loops.specs.Rows.{IsRow, stands_for};

use crate::base::undelayed;
use crate::cells::{bases, behind, links};
use crate::listed::{cells_of, list_all, sorted};
use crate::order::in_flat_order;
use crate::ranks::{Links, ranks};
use crate::reading::Held;
use crate::rows::{Rows, row_links, rows_read};
use smv_core::fault::{Fault, Refusal};
use smv_core::flat::{Cell, Design, Family};
use smv_core::seq::Seq;
use std::alloc::{AllocError, Global};

/// The fault of loops of a design, if it has one: its first assignment, in flat order, with which there is a loop.
/// The error is also answered where cells have more numbers than fit, which no text within the limits has.
pub fn loop_fault(alloc: Global, design: &Design) -> Result<Option<Fault>, AllocError>
    ensures { IfOk result (λ fault. fault ≡ first_fault_of_loops design.now) }
{
    let families = design.families.as_slice();
    let undelayed = undelayed(alloc, design)?;
    let looping = are_looping(alloc, families, undelayed.as_slice())?;
    if !looping {
        return Ok(None);
    }
    let held = in_flat_order(undelayed)?;
    let first = first_of(alloc, families, held.as_slice())?;
    match first {
        None => Ok(None),
        Some(first) => {
            let at = held[first].at;
            Ok(Some(Fault { number: 18, at }))
        }
    }
}

// Whether these assignments hold a cycle. Their order does not count.
fn are_looping(alloc: Global, families: &[Family], held: &[Held]) -> Result<bool, AllocError>
    ensures { IfOk result (λ looping. looping ≡ spec.hold_a_cycle (flat_map (edges_at families.now) (map reading_of held.now))) }
{
    let graph = graph(alloc, families, held)?;
    hold_a_cycle(
        alloc,
        families,
        graph.nodes,
        graph.rows,
        graph.links.as_slice(),
    )
}

/// The cells of a design, each after all that it reads at the same time.
#[derive(Drop)]
pub struct Order {
    pub cells: Seq<Cell>,
}

/// The order of the cells of a design, or its fault of loops.
/// Memory is also said to be out where cells have more numbers than fit, which no text within the limits has.
pub fn loops(alloc: Global, design: &Design) -> Result<Order, Refusal>
    ensures order { IfOk result (λ order. IsOrder design.now order.cells) }
    ensures faultless { IfOk result (λ order. first_fault_of_loops design.now ≡ None) }
    ensures fault { IfFault result (λ fault. first_fault_of_loops design.now ≡ Some fault) }
{
    let families = design.families.as_slice();
    let held = in_flat_order(undelayed(alloc, design)?)?;
    let first = first_of(alloc, families, held.as_slice())?;
    match first {
        None => Ok(Order {
            cells: ordered(alloc, families, held.as_slice())?,
        }),
        Some(first) => Err(Refusal::Fault(Fault {
            number: 18,
            at: held[first].at,
        })),
    }
}

// The cells in the order of their ranks, where there is no loop.
fn ordered(alloc: Global, families: &[Family], held: &[Held]) -> Result<Seq<Cell>, AllocError>
    requires { spec.hold_a_cycle (flat_map (edges_at families.now) (map reading_of held.now)) ≡ false }
    ensures same { IfOk result (λ cells. IsPermutation (cells_from 0 families.now) cells) }
    ensures after { IfOk result (λ cells. AreAfterTheirReads (flat_map (edges_at families.now) (map reading_of held.now)) cells) }
{
    let graph = graph(alloc, families, held)?;
    let ranks = ranks(alloc, graph.nodes, graph.links.as_slice())?;
    let listed = list_all(alloc, families, graph.bases.as_slice(), ranks.as_slice())?;
    cells_of(alloc, sorted(listed)?)
}

// The first assignment with which those before it hold a cycle, if there is one.
fn first_of(alloc: Global, families: &[Family], held: &[Held]) -> Result<Option<usize>, AllocError>
    ensures { IfOk result (λ first. MatchOption first (spec.hold_a_cycle (flat_map (edges_at families.now) (map reading_of held.now)) ≡ false) (λ k. IsFirst families.now (map reading_of held.now) k)) }
{
    let graph = graph(alloc, families, held)?;
    first_closing(
        alloc,
        families,
        graph.nodes,
        graph.rows,
        graph.links.as_slice(),
    )
}

/// Where the numbers of families begin, how many numbers and how many rows there are, and the links of the rows and then of the assignments.
#[derive(Drop)]
pub struct Linked {
    pub bases: Vec<usize>,
    pub nodes: usize,
    pub rows: usize,
    pub links: Vec<Links>,
}

// The links of all of these assignments.
fn graph(alloc: Global, families: &[Family], held: &[Held]) -> Result<Linked, AllocError>
    ensures bases { IfOk result (λ graph. AreBases families.now graph.bases.items) }
    ensures nodes { IfOk result (λ graph. graph.nodes ≡ total families.now + graph.rows) }
    ensures links { IfOk result (λ graph. AreShown families.now graph.rows graph.links.items (map reading_of held.now)) }
{
    let bases = bases(alloc, families)?;
    let rows = rows_read(alloc, families, bases.as_slice(), held)?;
    let cells = bases[families.len()];
    let nodes = behind(cells, rows.rows.len())?;
    let mut links = row_links(alloc, families, cells, rows.rows.as_slice())?;
    add_links(alloc, &mut links, families, bases.as_slice(), &rows, held)?;
    Ok(Linked {
        bases,
        nodes,
        rows: rows.rows.len(),
        links,
    })
}

// The links of these assignments, behind those of the rows.
fn add_links(
    alloc: Global,
    all: &mut Vec<Links>,
    families: &[Family],
    bases: &[usize],
    rows: &Rows,
    held: &[Held],
) -> Result<(), AllocError>
    requires bases { AreBases families.now bases.now }
    requires rows { All (IsRow families.now) rows.now.rows.items }
    ensures { OnOk result (AreAdded families.now (stands_for families.now rows.now.rows.items) (total families.now + length rows.now.rows.items) all.old.items all.new.items (map reading_of held.now)) }
{
    for x in held {
        all.push(links(alloc, families, bases, rows, x)?)?;
    }
    Ok(())
}

// The same by links.
fn first_closing(
    alloc: Global,
    families: &[Family],
    nodes: usize,
    rows: usize,
    links: &[Links],
) -> Result<Option<usize>, AllocError>
    requires nodes { nodes ≡ total families.now + rows }
    requires below { AreBelow nodes links.now }
    ensures { (readings : List Reading) → AreShown families.now rows links.now readings → IfOk result (λ first. MatchOption first (spec.hold_a_cycle (flat_map (edges_at families.now) readings) ≡ false) (λ k. IsFirst families.now readings k)) }
{
    if links.len() <= rows {
        return Ok(None);
    }
    let held = hold_a_cycle(alloc, families, nodes, rows, links)?;
    if !held {
        return Ok(None);
    }
    let first = between(alloc, families, nodes, rows, links, 0, links.len() - rows)?;
    Ok(Some(first))
}

// The same, between so many assignments that hold none and so many that hold one.
fn between(
    alloc: Global,
    families: &[Family],
    nodes: usize,
    rows: usize,
    links: &[Links],
    low: usize,
    high: usize,
) -> Result<usize, AllocError>
    requires nodes { nodes ≡ total families.now + rows }
    requires below { AreBelow nodes links.now }
    requires order { low < high }
    requires high { rows + high ≤ length links.now }
    ensures { (readings : List Reading) → AreShown families.now rows links.now readings → spec.hold_a_cycle (flat_map (edges_at families.now) (take low readings)) ≡ false → spec.hold_a_cycle (flat_map (edges_at families.now) (take high readings)) ≡ true → IfOk result (λ k. IsFirst families.now readings k) }
{
    if high - low <= 1 {
        return Ok(low);
    }
    let middle = low + (high - low) / 2;
    let held = hold_a_cycle(alloc, families, nodes, rows, &links[..rows + middle])?;
    if held {
        between(alloc, families, nodes, rows, links, low, middle)
    } else {
        between(alloc, families, nodes, rows, links, middle, high)
    }
}

// Whether the edges of assignments hold a cycle.
fn hold_a_cycle(
    alloc: Global,
    families: &[Family],
    nodes: usize,
    rows: usize,
    links: &[Links],
) -> Result<bool, AllocError>
    requires nodes { nodes ≡ total families.now + rows }
    requires below { AreBelow nodes links.now }
    ensures { (readings : List Reading) → AreShown families.now rows links.now readings → IfOk result (λ held. held ≡ spec.hold_a_cycle (flat_map (edges_at families.now) readings)) }
{
    let ranks = ranks(alloc, nodes, links)?;
    Ok(has_none(ranks.as_slice()))
}

// Whether a cell has no rank.
fn has_none(ranks: &[usize]) -> bool
    ensures some { result ≡ true → (cell : ℕ) × (cell < length ranks.now) × (rank ranks.now cell ≡ 0) }
    ensures none { result ≡ false → (cell : ℕ) → cell < length ranks.now → 0 < rank ranks.now cell }
{
    for rank in ranks {
        if *rank == 0 {
            return true;
        }
    }
    false
}

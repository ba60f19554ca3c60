//! That the order of a graph without a cycle has all its nodes, so that no search is made there, and the order of cells.

use crate::texts::{designed, is_so};
use graphs::ranks::{order, ranks};
use smv_core::Refusal;
use smv_loops::loops::{Order, loops};
use std::alloc::{AllocError, Global};
use std::test::Fail;

// Each node has an edge to the one before it, and the first to the last where there is a `cycle`.
fn ring(alloc: Global, nodes: usize, cycle: bool) -> Result<Vec<Vec<usize>>, AllocError> {
    let mut graph = Vec::new(alloc);
    for node in 0..nodes {
        let mut edges = Vec::new(alloc);
        if node > 0 {
            edges.push(node - 1)?;
        } else if cycle {
            edges.push(nodes - 1)?;
        }
        graph.push(edges)?;
    }
    Ok(graph)
}

// Whether there is an order and a rank of this many nodes.
fn are_ordered(alloc: Global, graph: &[Vec<usize>], count: usize) -> Result<bool, AllocError> {
    let is_ordered = order(alloc, graph)?.len() == count;
    Ok(is_ordered && ranks(alloc, graph)?.len() == count)
}

fn has_chain_an_order(alloc: Global) -> Result<bool, AllocError> {
    let chain = ring(alloc, 100_000, false)?;
    are_ordered(alloc, chain.as_slice(), 100_000)
}

#[test]
fn a_chain_has_an_order(rt: HostRuntime) -> Result<(), Fail> {
    is_so(has_chain_an_order(rt.alloc()))
}

fn has_ring_no_order(alloc: Global) -> Result<bool, AllocError> {
    let cycle = ring(alloc, 100_000, true)?;
    Ok(order(alloc, cycle.as_slice())?.is_empty())
}

#[test]
fn a_ring_has_no_order(rt: HostRuntime) -> Result<(), Fail> {
    is_so(has_ring_no_order(rt.alloc()))
}

// The cells in their order, each by its family and its index.
fn cells_of(alloc: Global, order: &Order) -> Result<Vec<(u16, Option<u8>)>, AllocError> {
    let mut cells = Vec::new(alloc);
    for cell in order.cells.as_slice() {
        let index = match cell.indexes.as_slice() {
            [index] => *index,
            _ => None,
        };
        cells.push((cell.family, index))?;
    }
    Ok(cells)
}

fn cells_in_order(alloc: Global, text: &str) -> Result<Vec<(u16, Option<u8>)>, Refusal> {
    let design = designed(alloc, text)?;
    let order = loops(alloc, &design)?;
    Ok(cells_of(alloc, &order)?)
}

// Without the `next`, each reads the one before it: b, x[0], x[1], a.
#[test]
fn each_cell_is_after_what_it_reads(rt: HostRuntime) -> Result<(), Fail> {
    let text =
        "module main() { a, b : boolean; x : array 0..1 of boolean; a := x[1]; x[0] := b; x[1] := x[0]; next(b) := a; }";
    let cells = cells_in_order(rt.alloc(), text)?;
    let want = [(1, None), (2, Some(0)), (2, Some(1)), (0, None)];
    is_so(Ok(cells.as_slice() == want.as_slice()))
}

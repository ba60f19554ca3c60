// Ranks of numbered cells by which what is read is below what reads it, as far as there are such ranks.
ghost use Rattle.std.specs.Prelude.{◌≡◌, ℕ, ◌<◌, length, true, slice_index_or, vec_len, IfOk, MatchOption};
ghost use Rattle.std.specs.List.{All};
ghost use Rattle.smv_loops.specs.Ranks as spec;
ghost use Rattle.smv_loops.specs.Ranks.{AreRanked, IsOpen, Falls, AreBelow, AreHeldUp, Flagged, FlaggedBy, Raised, AreSettled};

use std::alloc::{AllocError, Global};

/// An assignment, by the numbers of the cells that it concerns and of those that it reads.
#[derive(Drop)]
pub struct Links {
    pub from: Vec<usize>,
    pub to: Vec<usize>,
}

// How many rounds may lift cells before the order of a graph is looked for.
const ROUNDS: usize = 8;

/// Ranks of the cells, 0 for none: each edge between cells with ranks falls, and a cell without a rank reads another one.
pub fn ranks(alloc: Global, cells: usize, links: &[Links]) -> Result<Vec<usize>, AllocError>
    requires { AreBelow cells links.now }
    ensures { IfOk result (λ ranks. AreSettled cells links.now ranks.items) }
{
    let tried = tried(alloc, cells, links)?;
    if tried.len() == cells && all_fall(tried.as_slice(), links) {
        return settled(alloc, tried, links);
    }
    let none = vec![in alloc; 0; cells]?;
    settled(alloc, none, links)
}

// Ranks to try: nothing rests on them. Where few rounds lift each cell above all that it reads, no graph is made.
fn tried(alloc: Global, cells: usize, links: &[Links]) -> Result<Vec<usize>, AllocError> {
    let mut ranks = vec![in alloc; 1; cells]?;
    for _ in 0..ROUNDS {
        if !lift_all(ranks.as_mut_slice(), links) {
            return Ok(ranks);
        }
    }
    ordered(alloc, cells, links)
}

// Lifts the cells that each assignment concerns above those that it reads. Whether one was lifted.
fn lift_all(ranks: &mut [usize], links: &[Links]) -> bool {
    let mut lifted = false;
    for link in links {
        let least = least_above(ranks, link.to.as_slice());
        if lift(ranks, link.from.as_slice(), least) {
            lifted = true;
        }
    }
    lifted
}

// A rank above those of these cells.
fn least_above(ranks: &[usize], cells: &[usize]) -> usize {
    let mut most: usize = 0;
    for cell in cells {
        most = most.max(rank(ranks, *cell));
    }
    most.saturating_add(1)
}

// Lifts these cells to a rank. Whether one was lifted.
fn lift(ranks: &mut [usize], cells: &[usize], least: usize) -> bool {
    let mut lifted = false;
    for cell in cells {
        if let Some(rank) = ranks.get_mut(*cell) {
            if *rank < least {
                *rank = least;
                lifted = true;
            }
        }
    }
    lifted
}

// The ranks of cells by the order of a graph, in which what is read comes first.
fn ordered(alloc: Global, cells: usize, links: &[Links]) -> Result<Vec<usize>, AllocError> {
    let mut graph: Vec<Vec<usize>> = Vec::new(alloc);
    for _ in 0..cells {
        graph.push(Vec::new(alloc))?;
    }
    for (turn, link) in links.iter().enumerate() {
        for cell in &link.from {
            if let Some(edges) = graph.get_mut(*cell) {
                edges.push(cells.saturating_add(turn))?;
            }
        }
    }
    for link in links {
        graph.push(Vec::from_slice(alloc, link.to.as_slice())?)?;
    }
    let order = graphs::ranks::order(alloc, graph.as_slice())?;
    let mut ranks = vec![in alloc; 0; cells]?;
    for (place, node) in order.iter().enumerate() {
        if let Some(rank) = ranks.get_mut(*node) {
            *rank = place.saturating_add(1);
        }
    }
    Ok(ranks)
}

// Ranks are given as long as a cell reads none that has no rank.
fn settled(alloc: Global, ranks: Vec<usize>, links: &[Links]) -> Result<Vec<usize>, AllocError>
    requires below { AreBelow (vec_len ranks) links.now }
    requires fall { All (Falls ranks.items) links.now }
    ensures { IfOk result (λ settled. AreSettled (vec_len ranks) links.now settled.items) }
{
    let mut ranks = ranks;
    'rounds: loop {
        let flags = held_up(alloc, ranks.as_slice(), links)?;
        let next = next_rank(ranks.as_slice())?;
        let moved = raise(ranks.as_mut_slice(), flags.as_slice(), next);
        if !moved {
            return Ok(ranks);
        }
    }
}

// A rank above all.
fn next_rank(ranks: &[usize]) -> Result<usize, AllocError>
    ensures { IfOk result (λ next. (cell : ℕ) → spec.rank ranks.now cell < next) }
{
    let mut most = 0;
    for rank in ranks {
        most = most.max(*rank);
    }
    most.checked_add(1).ok_or(AllocError)
}

// Each cell without a rank and a flag gets the next rank. Whether there was one.
fn raise(ranks: &mut [usize], flags: &[bool], next: usize) -> bool
    requires { 0 < next }
    ensures { Raised flags.now next ranks.old ranks.new result }
{
    let mut moved = false;
    for cell in 0..ranks.len() {
        if ranks[cell] == 0 && !has_flag(flags, cell) {
            ranks[cell] = next;
            moved = true;
        }
    }
    moved
}

fn has_flag(flags: &[bool], cell: usize) -> bool
    ensures { result ≡ spec.flag flags.now cell }
{
    flags.get(cell).copied().unwrap_or(false)
}

// The cells that are held up.
fn held_up(alloc: Global, ranks: &[usize], links: &[Links]) -> Result<Vec<bool>, AllocError>
    requires { AreBelow (length ranks.now) links.now }
    ensures { IfOk result (λ flags. AreHeldUp ranks.now links.now flags.items) }
{
    let mut flags = vec![in alloc; false; ranks.len()]?;
    for link in links {
        flag_by(ranks, link, flags.as_mut_slice());
    }
    Ok(flags)
}

// The cells that an assignment concerns are flagged, where it reads one without a rank.
fn flag_by(ranks: &[usize], link: &Links, flags: &mut [bool])
    requires { (a : ℕ) → a < length link.now.from.items → slice_index_or link.now.from.items a 0 < length flags.old }
    ensures { FlaggedBy ranks.now link.now flags.old flags.new }
{
    match highest(ranks, link.to.as_slice()) {
        None => flag_all(flags, link.from.as_slice()),
        Some(_) => {}
    }
}

// These cells are flagged.
fn flag_all(flags: &mut [bool], cells: &[usize])
    requires { (a : ℕ) → a < length cells.now → slice_index_or cells.now a 0 < length flags.old }
    ensures { Flagged cells.now flags.old flags.new }
{
    for cell in cells {
        flags[*cell] = true;
    }
}

// The highest rank of these cells, if each has one.
fn highest(ranks: &[usize], cells: &[usize]) -> Option<usize>
    ensures { MatchOption result (IsOpen ranks.now cells.now) (λ most. AreRanked ranks.now cells.now most) }
{
    let mut most = 0;
    for cell in cells {
        let rank = rank(ranks, *cell);
        if rank == 0 {
            return None;
        }
        most = most.max(rank);
    }
    Some(most)
}

/// The rank of a cell, 0 for none.
pub fn rank(ranks: &[usize], cell: usize) -> usize
    ensures { result ≡ spec.rank ranks.now cell }
{
    ranks.get(cell).copied().unwrap_or(0)
}

// Each edge between cells with ranks falls.
fn all_fall(ranks: &[usize], links: &[Links]) -> bool
    ensures { result ≡ true → All (Falls ranks.now) links.now }
{
    for link in links {
        if !falls(ranks, link) {
            return false;
        }
    }
    true
}

fn falls(ranks: &[usize], link: &Links) -> bool
    ensures { result ≡ true → Falls ranks.now link.now }
{
    match highest(ranks, link.to.as_slice()) {
        None => none_above(ranks, link.from.as_slice()),
        Some(most) => all_above(ranks, link.from.as_slice(), most),
    }
}

// None of these cells has a rank.
fn none_above(ranks: &[usize], cells: &[usize]) -> bool
    ensures { result ≡ true → (a : ℕ) → a < length cells.now → spec.rank_at ranks.now cells.now a ≡ 0 }
{
    for cell in cells {
        if rank(ranks, *cell) > 0 {
            return false;
        }
    }
    true
}

// Each of these cells that has a rank has one above this.
fn all_above(ranks: &[usize], cells: &[usize], most: usize) -> bool
    ensures { result ≡ true → (a : ℕ) → a < length cells.now → 0 < spec.rank_at ranks.now cells.now a → most < spec.rank_at ranks.now cells.now a }
{
    for cell in cells {
        let rank = rank(ranks, *cell);
        if rank > 0 && rank <= most {
            return false;
        }
    }
    true
}

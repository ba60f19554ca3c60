// Where an assignment reads a cell that another concerns.
ghost use Rattle.std.specs.Prelude.{◌≡◌, map};
ghost use Rattle.smv_indexes.specs.Indexes.{index_of};
ghost use Rattle.smv_loops.specs.Held.{index_in, reading_of, reference_of};
ghost use Rattle.smv_look_loops.specs.Shares as spec;

use smv_core::flat::{Family, FlatExpr, Simple};
use smv_indexes::{Index, known};
use smv_loops::cells::{does_fit, is_constant};
use smv_loops::reading::{Held, Read};

// It fits both.
fn do_fit(i: Index, j: Index, k: usize) -> bool
    ensures { result ≡ spec.both_fit (index_of i) (index_of j) k }
{
    does_fit(i, k) && does_fit(j, k)
}

// A number of a range fits both indexes.
fn share_range(low: u8, high: u8, i: Index, j: Index) -> bool
    ensures { result ≡ spec.share_range low high (index_of i) (index_of j) }
{
    let first = usize::from(low);
    let end = first.max(usize::from(high) + 1);
    for k in first..end {
        if do_fit(i, j, k) {
            return true;
        }
    }
    false
}

// What a cell has at the one index it may have at the other.
fn share_at(over: Simple, i: Index, j: Index) -> bool
    ensures { result ≡ spec.share_at over (index_of i) (index_of j) }
{
    match over {
        Simple::Range { low, high } => share_range(low, high, i, j),
        Simple::Enum { .. } => !is_constant(i) && !is_constant(j),
        Simple::Set { .. } => !is_constant(i) && !is_constant(j),
    }
}

// A cell has these indexes and those.
#[tactic(auto, unfolding(smv_loops::specs::Held::index_in))]
fn share(over: &[Simple], is: &[FlatExpr], js: &[FlatExpr]) -> bool
    ensures { result ≡ spec.share over.now (map index_in is.now) (map index_in js.now) }
{
    match over {
        [] => true,
        [first, over @ ..] => match is {
            [] => js.is_empty(),
            [i, is @ ..] => match js {
                [] => false,
                [j, js @ ..] => share_at(*first, known(i), known(j)) && share(over, is, js),
            },
        },
    }
}

// A reference reads a cell that an assignment concerns.
fn meets(families: &[Family], read: Read, b: &Held) -> bool
    ensures { result ≡ spec.meets families.now (reference_of read.entry) (reading_of b.now) }
{
    if read.family != b.family {
        return false;
    }
    match families.get(usize::from(read.family)) {
        None => false,
        Some(family) => share(family.over.as_slice(), read.indexes, b.left),
    }
}

/// The place of the first reference by which an assignment reads a cell that another concerns.
pub(crate) fn first_place(families: &[Family], reads: &[Read], b: &Held) -> Option<u32>
    ensures { result ≡ spec.first_place families.now (map reference_of reads.now) (reading_of b.now) }
{
    for read in reads {
        if meets(families, *read, b) {
            return Some(read.at);
        }
    }
    None
}

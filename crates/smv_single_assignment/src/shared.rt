// Variables that the assignments of a class have bare at one index.
ghost use Rattle.std.specs.Prelude.{◌≡◌, ◌&&◌, ℕ, map, true, IfOk};
ghost use Rattle.smv_single_assignment.specs.Held.{standing_of};
ghost use Rattle.smv_single_assignment.specs.Links.{AreClassed};
ghost use Rattle.smv_indexes.specs.Indexes.{index_of};
ghost use Rattle.smv_single_assignment.specs.Shared as spec;
ghost use Rattle.smv_single_assignment.specs.Shared.{AreShared, HasSpot, HasSpots};

use crate::assignments::Assignment;
use crate::left_sides::share;
use smv_core::flat::FlatExpr;
use smv_indexes::{Index, known};
use std::alloc::{AllocError, Global};
use std::collections::HashMap;

// How many left sides are kept for a class and a variable: there are no more sets of four indexes.
const MOST: usize = 16;

// The variable alone.
fn is_bare(var: u16, index: Index) -> bool
    ensures { result ≡ spec.is_bare var (index_of index) }
{
    match index {
        Index::Bare { var: other } => other == var,
        Index::Fixed { .. } => false,
        Index::Computed => false,
    }
}

// The variable stands bare at the second index if it does at the first.
fn stays_bare(var: u16, left: Index, right: Index) -> bool
    ensures { result ≡ spec.stays_bare var (index_of left) (index_of right) }
{
    if is_bare(var, left) {
        is_bare(var, right)
    } else {
        true
    }
}

// So it is at each index that both left sides have.
#[tactic(auto, using(crate::proofs::SharedLaws::stay_ends))]
fn all_stay(var: u16, left: &[FlatExpr], right: &[FlatExpr]) -> bool
    ensures { result ≡ spec.all_two (spec.stays_bare var) left.now right.now }
{
    let mut lefts = left;
    let mut rights = right;
    while let ([x, more @ ..], [y, others @ ..]) = (lefts, rights) {
        if !stays_bare(var, known(x), known(y)) {
            return false;
        }
        lefts = more;
        rights = others;
    }
    true
}

// The left sides are of one length, and the variable stands bare in the second wherever it does in the first.
fn is_below(var: u16, left: &[FlatExpr], right: &[FlatExpr]) -> bool
    ensures { result ≡ spec.is_below var left.now right.now }
{
    left.len() == right.len() && all_stay(var, left, right)
}

// The variable stands bare at one index of this left side and of each of those.
fn meets_all(var: u16, lefts: &[&[FlatExpr]], left: &[FlatExpr]) -> bool
    ensures { result ≡ spec.meets_all var lefts.now left.now }
{
    lefts.iter().all(|other| share(var, other, left))
}

// One of those is below this left side.
fn is_above_one(var: u16, lefts: &[&[FlatExpr]], left: &[FlatExpr]) -> bool
    ensures { result ≡ spec.is_above_one var lefts.now left.now }
{
    lefts.iter().any(|other| is_below(var, other, left))
}

// Both.
fn is_met(var: u16, lefts: &[&[FlatExpr]], left: &[FlatExpr]) -> bool
    ensures { result ≡ (spec.meets_all var lefts.now left.now && spec.is_above_one var lefts.now left.now) }
{
    meets_all(var, lefts, left) && is_above_one(var, lefts, left)
}

// Keeps a left side, where none that is kept is below it.
fn keep<'a>(
    lefts: &mut Vec<&'a [FlatExpr]>,
    var: u16,
    left: &'a [FlatExpr],
) -> Result<(), AllocError> {
    if lefts.len() < MOST && !is_above_one(var, lefts, left) {
        lefts.push(left)?;
    }
    Ok(())
}

// Keeps the left side of an assignment for its class and each variable around it.
fn note<'a>(
    alloc: Global,
    kept: &mut HashMap<(usize, u16), Vec<&'a [FlatExpr]>>,
    class: usize,
    x: &Assignment<'a>,
) -> Result<(), AllocError> {
    for var in &x.around {
        match kept.get_mut(&(class, *var)) {
            Some(lefts) => keep(lefts, *var, x.left)?,
            None => {
                kept.insert((class, *var), vec![in alloc; x.left]?)?;
            }
        }
    }
    Ok(())
}

// Left sides to compare with, for each class and variable: nothing rests on which they are.
fn kept_lefts<'a>(
    alloc: Global,
    all: &[Assignment<'a>],
    classes: &[usize],
) -> Result<HashMap<(usize, u16), Vec<&'a [FlatExpr]>>, AllocError> {
    let mut kept = HashMap::new(alloc);
    for (x, class) in all.iter().zip(classes) {
        note(alloc, &mut kept, *class, x)?;
    }
    Ok(kept)
}

// The variable stands bare at one index of this left side and of each that is kept, and one of these is below it.
fn has_spot(
    kept: &HashMap<(usize, u16), Vec<&[FlatExpr]>>,
    class: usize,
    left: &[FlatExpr],
    var: u16,
) -> bool
    ensures { result ≡ true → HasSpot kept.now class left.now var }
{
    match kept.get(&(class, var)) {
        None => false,
        Some(lefts) => is_met(var, lefts, left),
    }
}

// So it is with each variable around an assignment.
fn has_spots(kept: &HashMap<(usize, u16), Vec<&[FlatExpr]>>, class: usize, x: &Assignment) -> bool
    ensures { result ≡ true → HasSpots kept.now class (standing_of x.now) }
{
    for var in &x.around {
        if !has_spot(kept, class, x.left, *var) {
            return false;
        }
    }
    true
}

/// Whether each two assignments that may meet are seen to share the variables around both. Each is compared with a few left sides of its class, so the time grows with the
/// number of assignments.
pub(crate) fn are_shared(
    alloc: Global,
    all: &[Assignment],
    classes: &[usize],
) -> Result<bool, AllocError>
    requires { (count : ℕ) × AreClassed (map standing_of all.now) classes.now count }
    ensures { IfOk result (λ shared. shared ≡ true → AreShared (map standing_of all.now)) }
{
    let kept = kept_lefts(alloc, all, classes)?;
    for place in 0..all.len() {
        if !has_spots(&kept, classes[place], &all[place]) {
            return Ok(false);
        }
    }
    Ok(true)
}

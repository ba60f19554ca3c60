// What the conditions around a reference leave of the numbers that it can be.
ghost use Rattle.std.specs.Prelude.{◌≡◌, map, if◌then◌else◌};
ghost use Rattle.smv_indexes.specs.Indexes.{index_of};
ghost use Rattle.smv_look_bounds.specs.Held.{given_of, narrow_all, target_of};
ghost use Rattle.smv_look_bounds.specs.Narrowing as spec;

use crate::numbers::{Bounds, beside, denied, turned};
use crate::targets::{Target, index, same_target, target_in};
use smv_core::flat::FlatExpr;
use smv_core::tree::Op;
use smv_indexes::Index;

/// A condition around, and whether it holds there.
#[derive(Clone, Copy)]
pub(crate) struct Given<'a> {
    pub cond: &'a FlatExpr,
    pub holds: bool,
}

// What a comparison with an index leaves, where that is a number.
fn beside_index(op: Op, index: Index, b: Bounds) -> Bounds
    ensures { result ≡ spec.beside_index op (index_of index) b }
{
    match index {
        Index::Fixed { value: Some(k) } => beside(op, k, b),
        Index::Fixed { value: None } => b,
        Index::Bare { .. } => b,
        Index::Computed => b,
    }
}

// What a comparison leaves of what is referred to.
fn compared(t: Target, op: Op, left: &FlatExpr, right: &FlatExpr, b: Bounds) -> Bounds
    ensures { result ≡ spec.compared (target_of t.entry) op left.now right.now b }
{
    if same_target(t, target_in(left)) {
        beside_index(op, index(right), b)
    } else if same_target(t, target_in(right)) {
        beside_index(turned(op), index(left), b)
    } else {
        b
    }
}

// The comparison, or where it does not hold the one that does.
fn as_it_holds(holds: bool, op: Op) -> Op
    ensures { result ≡ (if holds then op else spec.denied op) }
{
    if holds { op } else { denied(op) }
}

// What a condition leaves that holds, or that does not.
#[cycle(conditions)]
#[tactic(auto, using(crate::proofs::NarrowEquations::equations))]
fn narrow(t: Target, holds: bool, x: &FlatExpr, b: Bounds) -> Bounds
    ensures { result ≡ spec.narrow (target_of t.entry) holds x.now b }
{
    match x {
        FlatExpr::And { parts } => {
            if holds {
                narrow_all(t, holds, parts.as_slice(), b)
            } else {
                b
            }
        }
        FlatExpr::Or { parts } => {
            if holds {
                b
            } else {
                narrow_all(t, holds, parts.as_slice(), b)
            }
        }
        FlatExpr::Not { of, .. } => narrow(t, !holds, of.get(), b),
        FlatExpr::Compare { op, left, right } => {
            compared(t, as_it_holds(holds, *op), left.get(), right.get(), b)
        }
        FlatExpr::Number { .. } => b,
        FlatExpr::Read { .. } => b,
        FlatExpr::Var { .. } => b,
        FlatExpr::Loop { .. } => b,
        FlatExpr::Constant { .. } => b,
        FlatExpr::Implies { .. } => b,
        FlatExpr::Iff { .. } => b,
        FlatExpr::Within { .. } => b,
        FlatExpr::Sum { .. } => b,
        FlatExpr::Modulo { .. } => b,
        FlatExpr::Choose { .. } => b,
        FlatExpr::All { .. } => b,
        FlatExpr::Any { .. } => b,
        FlatExpr::List { .. } => b,
        FlatExpr::Each { .. } => b,
    }
}

// The same of each of some parts.
#[cycle(conditions)]
fn narrow_all(t: Target, holds: bool, parts: &[FlatExpr], b: Bounds) -> Bounds
    ensures { result ≡ narrow_all (target_of t.entry) holds parts.now b }
{
    let mut left = b;
    for x in parts {
        left = narrow(t, holds, x, left);
    }
    left
}

/// What all conditions around leave.
pub(crate) fn narrowed(givens: &[Given], t: Target, b: Bounds) -> Bounds
    ensures { result ≡ spec.narrowed (map given_of givens.now) (target_of t.entry) b }
{
    let mut left = b;
    for given in givens {
        left = narrow(t, given.holds, given.cond, left);
    }
    left
}

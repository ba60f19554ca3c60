// Left sides beside one another, index by index.
ghost use Rattle.std.specs.Prelude.{◌≡◌};
ghost use Rattle.smv_core.specs.Conflicts.{are_two_constants, are_both};
ghost use Rattle.smv_indexes.specs.Indexes.{index_of};
ghost use Rattle.smv_single_assignment.specs.Classes as classes;
ghost use Rattle.smv_single_assignment.specs.Classes.{constant_in};
ghost use Rattle.smv_single_assignment.specs.LeftSides.{any_two};

use smv_core::flat::FlatExpr;
use smv_indexes::{Index, known};

// Two different constants.
fn are_constants_apart(left: Index, right: Index) -> bool
    ensures { result ≡ are_two_constants (index_of left) (index_of right) }
{
    match left {
        Index::Fixed { value: Some(left) } => match right {
            Index::Fixed { value: Some(right) } => left != right,
            Index::Fixed { value: None } => false,
            Index::Bare { .. } => false,
            Index::Computed => false,
        },
        Index::Fixed { value: None } => false,
        Index::Bare { .. } => false,
        Index::Computed => false,
    }
}

// This variable in both.
fn have_both(var: u16, left: Index, right: Index) -> bool
    ensures { result ≡ are_both var (index_of left) (index_of right) }
{
    match left {
        Index::Bare { var: left } => match right {
            Index::Bare { var: right } => left == var && right == var,
            Index::Fixed { .. } => false,
            Index::Computed => false,
        },
        Index::Fixed { .. } => false,
        Index::Computed => false,
    }
}

/// The constant at an index of a left side, if there is one.
pub fn constant_at(left: &[FlatExpr], index: usize) -> Option<u16>
    ensures { result ≡ constant_in left.now index }
{
    match left.get(index) {
        None => None,
        Some(x) => constant_value(known(x)),
    }
}

// The number of a constant.
fn constant_value(index: Index) -> Option<u16>
    ensures { result ≡ classes.constant_value (index_of index) }
{
    match index {
        Index::Fixed { value } => value,
        Index::Bare { .. } => None,
        Index::Computed => None,
    }
}

/// Whether two left sides differ at some index in two constants.
#[tactic(auto, using(crate::proofs::LeftSideLaws::ends))]
pub fn differ(left: &[FlatExpr], right: &[FlatExpr]) -> bool
    ensures { result ≡ any_two are_two_constants left.now right.now }
{
    let mut lefts = left;
    let mut rights = right;
    while let ([x, more @ ..], [y, others @ ..]) = (lefts, rights) {
        if are_constants_apart(known(x), known(y)) {
            return true;
        }
        lefts = more;
        rights = others;
    }
    false
}

/// Whether a variable stands bare at one index of both left sides.
#[tactic(auto, using(crate::proofs::LeftSideLaws::ends))]
pub fn share(var: u16, left: &[FlatExpr], right: &[FlatExpr]) -> bool
    ensures { result ≡ any_two (are_both var) left.now right.now }
{
    let mut lefts = left;
    let mut rights = right;
    while let ([x, more @ ..], [y, others @ ..]) = (lefts, rights) {
        if have_both(var, known(x), known(y)) {
            return true;
        }
        lefts = more;
        rights = others;
    }
    false
}

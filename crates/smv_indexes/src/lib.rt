//! The indexes of left sides and of references, as far as the text alone tells them: a constant, a variable of a `forall` alone, or another one.
//! For whoever looks elements up by their indexes. `known` is exactly `flat_index` of the definitions; to change what counts as a constant, change it there first.
#![tactic(auto)]

ghost use Rattle.std.specs.Prelude.{◌≡◌, false, Some};
ghost use Rattle.smv_core.specs.Values.{add, modulo};
ghost use Rattle.smv_core.specs.Assignments.{add_fixed, modulo_fixed};
ghost use Rattle.smv_core.specs.FlatMeaning.{flat_index};
ghost use Rattle.smv_indexes.specs.Indexes.{outcome_of, index_of, added_all};

use smv_core::flat::{FlatExpr, FlatSigned};

/// An index: a constant with its value, or none where it is Undefined; a variable of a `forall` alone; or another one.
#[derive(Clone, Copy, Debug, PartialEq, Eq)]
pub enum Index {
    Fixed { value: Option<u16> },
    Bare { var: u16 },
    Computed,
}

/// What is known of an index.
#[cycle(indexes)]
#[tactic(auto, using(crate::proofs::IndexLaws::equations))]
pub fn known(x: &FlatExpr) -> Index
    ensures { index_of result ≡ flat_index x.now }
{
    match x {
        FlatExpr::Number { value, .. } => Index::Fixed {
            value: Some(*value),
        },
        FlatExpr::Loop { value, .. } => Index::Fixed {
            value: Some(*value),
        },
        FlatExpr::Var { var, .. } => Index::Bare { var: *var },
        FlatExpr::Sum { first, more } => sum(known(first.get()), more.as_slice()),
        FlatExpr::Modulo { of, by, .. } => remainder(known(of.get()), *by),
        FlatExpr::Read { .. } => Index::Computed,
        FlatExpr::Constant { .. } => Index::Computed,
        FlatExpr::Not { .. } => Index::Computed,
        FlatExpr::And { .. } => Index::Computed,
        FlatExpr::Or { .. } => Index::Computed,
        FlatExpr::Implies { .. } => Index::Computed,
        FlatExpr::Iff { .. } => Index::Computed,
        FlatExpr::Compare { .. } => Index::Computed,
        FlatExpr::Within { .. } => Index::Computed,
        FlatExpr::Choose { .. } => Index::Computed,
        FlatExpr::All { .. } => Index::Computed,
        FlatExpr::Any { .. } => Index::Computed,
        FlatExpr::List { .. } => Index::Computed,
        FlatExpr::Each { .. } => Index::Computed,
    }
}

// A sum from the left.
#[cycle(indexes)]
fn sum(first: Index, more: &[FlatSigned]) -> Index
    ensures { index_of result ≡ added_all (index_of first) more.now }
{
    let mut total = first;
    for signed in more {
        total = added(signed.minus, total, known(&signed.of));
    }
    total
}

// A sum or a difference of constants is a constant.
fn added(minus: bool, left: Index, right: Index) -> Index
    ensures { index_of result ≡ add_fixed minus (index_of left) (index_of right) }
{
    match left {
        Index::Fixed { value: left } => match right {
            Index::Fixed { value: right } => Index::Fixed {
                value: added_values(minus, left, right),
            },
            Index::Bare { .. } => Index::Computed,
            Index::Computed => Index::Computed,
        },
        Index::Bare { .. } => Index::Computed,
        Index::Computed => Index::Computed,
    }
}

fn added_values(minus: bool, left: Option<u16>, right: Option<u16>) -> Option<u16>
    ensures { outcome_of result ≡ add minus (outcome_of left) (outcome_of right) }
{
    match left {
        None => None,
        Some(left) => match right {
            None => None,
            Some(right) => {
                if minus {
                    left.checked_sub(right)
                } else {
                    small_sum(left, right)
                }
            }
        },
    }
}

// A sum up to 511.
fn small_sum(left: u16, right: u16) -> Option<u16>
    ensures { outcome_of result ≡ add false (outcome_of (Some left)) (outcome_of (Some right)) }
{
    if left <= 511 && right <= 511 && left + right <= 511 {
        Some(left + right)
    } else {
        None
    }
}

// The remainder of a constant is a constant.
fn remainder(of: Index, by: u16) -> Index
    ensures { index_of result ≡ modulo_fixed (index_of of) by }
{
    match of {
        Index::Fixed { value } => Index::Fixed {
            value: remainder_value(value, by),
        },
        Index::Bare { .. } => Index::Computed,
        Index::Computed => Index::Computed,
    }
}

#[tactic(auto, using(crate::proofs::IndexLaws::remainders))]
fn remainder_value(value: Option<u16>, by: u16) -> Option<u16>
    ensures { outcome_of result ≡ modulo (outcome_of value) by }
{
    match value {
        None => None,
        Some(value) => value.checked_rem(by),
    }
}

// What expressions refer to.
ghost use Rattle.std.specs.Prelude.{◌≡◌, map};
ghost use Rattle.smv_indexes.specs.Indexes.{index_of};
ghost use Rattle.smv_look_bounds.specs.Held.{target_of};
ghost use Rattle.smv_look_bounds.specs.Narrowing as spec;
ghost use Rattle.smv_look_bounds.specs.Narrowing.{index_in};

use smv_core::flat::FlatExpr;
use smv_indexes::{Index, known};

/// What an expression refers to: an element by its family and its indexes, a variable, or nothing of these.
#[derive(Clone, Copy)]
pub(crate) enum Target<'a> {
    Element {
        family: u16,
        indexes: &'a [FlatExpr],
    },
    Variable {
        var: u16,
    },
    Nothing,
}

/// What the text alone tells of an index.
#[tactic(auto, unfolding(crate::specs::Narrowing::index_in))]
pub(crate) fn index(x: &FlatExpr) -> Index
    ensures { index_of result ≡ index_in x.now }
{
    known(x)
}

/// What an expression refers to.
#[tactic(auto, using(crate::proofs::TargetEquations::equations))]
pub(crate) fn target_in(x: &FlatExpr) -> Target<'_>
    ensures { target_of result ≡ spec.target x.now }
{
    match x {
        FlatExpr::Read {
            family,
            indexes,
            ..
        } => Target::Element {
            family: *family,
            indexes: indexes.as_slice(),
        },
        FlatExpr::Var { var, .. } => Target::Variable { var: *var },
        FlatExpr::Number { .. } => Target::Nothing,
        FlatExpr::Loop { .. } => Target::Nothing,
        FlatExpr::Constant { .. } => Target::Nothing,
        FlatExpr::Not { .. } => Target::Nothing,
        FlatExpr::And { .. } => Target::Nothing,
        FlatExpr::Or { .. } => Target::Nothing,
        FlatExpr::Implies { .. } => Target::Nothing,
        FlatExpr::Iff { .. } => Target::Nothing,
        FlatExpr::Compare { .. } => Target::Nothing,
        FlatExpr::Within { .. } => Target::Nothing,
        FlatExpr::Sum { .. } => Target::Nothing,
        FlatExpr::Modulo { .. } => Target::Nothing,
        FlatExpr::Choose { .. } => Target::Nothing,
        FlatExpr::All { .. } => Target::Nothing,
        FlatExpr::Any { .. } => Target::Nothing,
        FlatExpr::List { .. } => Target::Nothing,
        FlatExpr::Each { .. } => Target::Nothing,
    }
}

// Two indexes have one value as far as the text alone tells them.
fn same_index(left: Index, right: Index) -> bool
    ensures { result ≡ spec.same_index (index_of left) (index_of right) }
{
    match left {
        Index::Fixed { value: Some(m) } => match right {
            Index::Fixed { value: Some(n) } => m == n,
            Index::Fixed { value: None } => false,
            Index::Bare { .. } => false,
            Index::Computed => false,
        },
        Index::Fixed { value: None } => false,
        Index::Bare { var: m } => match right {
            Index::Fixed { .. } => false,
            Index::Bare { var: n } => m == n,
            Index::Computed => false,
        },
        Index::Computed => false,
    }
}

// So do all indexes of two references.
fn same_indexes(left: &[FlatExpr], right: &[FlatExpr]) -> bool
    ensures { result ≡ spec.same_indexes (map index_in left.now) (map index_in right.now) }
{
    match left {
        [] => right.is_empty(),
        [x, more @ ..] => match right {
            [] => false,
            [y, others @ ..] => same_index(index(x), index(y)) && same_indexes(more, others),
        },
    }
}

/// Two references are to one element, or to one variable.
pub(crate) fn same_target(left: Target, right: Target) -> bool
    ensures { result ≡ spec.same_target (target_of left.entry) (target_of right.entry) }
{
    match left {
        Target::Element { family, indexes } => match right {
            Target::Element {
                family: other,
                indexes: others,
            } => family == other && same_indexes(indexes, others),
            Target::Variable { .. } => false,
            Target::Nothing => false,
        },
        Target::Variable { var } => match right {
            Target::Element { .. } => false,
            Target::Variable { var: other } => var == other,
            Target::Nothing => false,
        },
        Target::Nothing => false,
    }
}

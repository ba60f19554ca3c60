// The kinds of expressions.
ghost use Rattle.std.specs.Prelude.{◌≡◌, ◌&&◌, slice_get, nat_eq};
ghost use Rattle.std.specs.List.{list_any};
ghost use Rattle.law_splits.specs.SplitFaults as splits;
ghost use Rattle.smv_splits.specs.Parts as parts;

use smv_core::flat::{Family, FlatExpr, Param, Simple};
use smv_references::brackets::same_type;

// Whether the values of two types are of one kind.
fn same_kind(a: Simple, b: Simple) -> bool
    ensures { result ≡ splits.same_kind a b }
{
    match (a, b) {
        (Simple::Range { .. }, Simple::Range { .. }) => true,
        _ => same_type(a, b),
    }
}

fn is_of_numbers(over: Simple) -> bool
    ensures { result ≡ splits.is_of_numbers over }
{
    match over {
        Simple::Range { .. } => true,
        Simple::Enum { .. } => false,
        Simple::Set { .. } => false,
    }
}

// Whether the elements of a family have values of the kind of this type.
fn has_values_of_kind(families: &[Family], over: Simple, family: u16) -> bool
    ensures { result ≡ splits.has_values_of_kind over (slice_get families.now family) }
{
    match families.get(usize::from(family)) {
        Some(found) => same_kind(over, found.value),
        None => false,
    }
}

// Whether one of these variables is this, and of that kind.
fn is_variable_of_kind(bound: &[Param], over: Simple, var: u16) -> bool
    ensures { result ≡ list_any (λ p. nat_eq p.var var && splits.same_kind over p.over) bound.now }
{
    bound
        .iter()
        .any(|p| p.var == var && same_kind(over, p.over))
}

/// Whether an expression is of the kind of this type, inside these variables.
#[tactic(auto, unfolding(crate::specs::Parts::is_of_kind))]
pub(crate) fn is_of_kind(families: &[Family], bound: &[Param], over: Simple, x: &FlatExpr) -> bool
    ensures { result ≡ splits.is_of_kind families.now bound.now over x.now }
{
    has_kind(families, bound, over, x)
}

// The same, where the definition's name stays closed.
#[tactic(auto, using(crate::proofs::KindLaws::equations))]
fn has_kind(families: &[Family], bound: &[Param], over: Simple, x: &FlatExpr) -> bool
    ensures { result ≡ parts.is_of_kind families.now bound.now over x.now }
{
    match x {
        FlatExpr::Read { family, .. } => has_values_of_kind(families, over, *family),
        FlatExpr::Var { var, .. } => is_variable_of_kind(bound, over, *var),
        FlatExpr::Constant { list, .. } => same_kind(over, Simple::Enum { list: *list }),
        FlatExpr::Choose { yes, .. } => has_kind(families, bound, over, yes.get()),
        FlatExpr::Number { .. } | FlatExpr::Loop { .. } | FlatExpr::Not { .. } => {
            is_of_numbers(over)
        }
        FlatExpr::And { .. } | FlatExpr::Or { .. } | FlatExpr::Implies { .. } => {
            is_of_numbers(over)
        }
        FlatExpr::Iff { .. } | FlatExpr::Compare { .. } | FlatExpr::Within { .. } => {
            is_of_numbers(over)
        }
        FlatExpr::Sum { .. } | FlatExpr::Modulo { .. } => is_of_numbers(over),
        FlatExpr::All { .. } | FlatExpr::Any { .. } => is_of_numbers(over),
        FlatExpr::List { .. } | FlatExpr::Each { .. } => is_of_numbers(over),
    }
}

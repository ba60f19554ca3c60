// Expressions that are made of constants alone.
ghost use Rattle.std.specs.Prelude.{◌≡◌};
ghost use Rattle.std.specs.List.{list_all};
ghost use Rattle.smv_look_bounds.specs.Constants as spec;
ghost use Rattle.smv_look_bounds.specs.Held.{member_constant, term_constant};

use smv_core::flat::{FlatExpr, FlatMember, FlatSigned};

/// An expression is made of written numbers and constants of enumerations alone.
#[cycle(constants)]
#[tactic(auto, using(crate::proofs::ConstantEquations::equations))]
pub(crate) fn is_constant(x: &FlatExpr) -> bool
    ensures { result ≡ spec.is_constant x.now }
{
    match x {
        FlatExpr::Number { .. } => true,
        FlatExpr::Constant { .. } => true,
        FlatExpr::Not { of, .. } => is_constant(of.get()),
        FlatExpr::And { parts } => are_constant(parts.as_slice()),
        FlatExpr::Or { parts } => are_constant(parts.as_slice()),
        FlatExpr::Implies { parts } => are_constant(parts.as_slice()),
        FlatExpr::Iff { left, right } => is_constant(left.get()) && is_constant(right.get()),
        FlatExpr::Compare { left, right, .. } => {
            is_constant(left.get()) && is_constant(right.get())
        }
        FlatExpr::Within { left, set } => is_constant(left.get()) && is_constant(set.get()),
        FlatExpr::Sum { first, more } => {
            is_constant(first.get()) && terms_constant(more.as_slice())
        }
        FlatExpr::Modulo { of, .. } => is_constant(of.get()),
        FlatExpr::Choose { cond, yes, no } => {
            is_constant(cond.get()) && is_constant(yes.get()) && is_constant(no.get())
        }
        FlatExpr::List { members, .. } => members_constant(members.as_slice()),
        FlatExpr::Read { .. } => false,
        FlatExpr::Var { .. } => false,
        FlatExpr::Loop { .. } => false,
        FlatExpr::All { .. } => false,
        FlatExpr::Any { .. } => false,
        FlatExpr::Each { .. } => false,
    }
}

#[cycle(constants)]
fn are_constant(parts: &[FlatExpr]) -> bool
    ensures { result ≡ list_all spec.is_constant parts.now }
{
    for x in parts {
        if !is_constant(x) {
            return false;
        }
    }
    true
}

#[cycle(constants)]
fn terms_constant(more: &[FlatSigned]) -> bool
    ensures { result ≡ list_all term_constant more.now }
{
    for x in more {
        if !is_constant(&x.of) {
            return false;
        }
    }
    true
}

#[cycle(constants)]
fn members_constant(members: &[FlatMember]) -> bool
    ensures { result ≡ list_all member_constant members.now }
{
    for x in members {
        match x {
            FlatMember::One { of } => {
                if !is_constant(of) {
                    return false;
                }
            }
            FlatMember::Span { .. } => {}
        }
    }
    true
}

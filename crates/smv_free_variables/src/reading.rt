// Which variables an expression reads.
ghost use Rattle.std.specs.Prelude.{◌≡◌};
ghost use Rattle.std.specs.List.{list_any};
ghost use Rattle.smv_free_variables.specs.Reading.{occurs, occurs_signed, occurs_member};

use smv_core::flat::{FlatExpr, FlatMember, FlatSigned};

/// Whether the variable of this number occurs free in an expression.
#[cycle(reading)]
#[tactic(auto, using(crate::proofs::ReadingLaws::equations))]
pub fn is_read(e: &FlatExpr, var: usize) -> bool
    ensures { result ≡ occurs var e.now }
{
    match e {
        FlatExpr::Number { .. } => false,
        FlatExpr::Read { indexes, .. } => is_read_in(indexes.as_slice(), var),
        FlatExpr::Var { var: own, .. } => *own as usize == var,
        FlatExpr::Loop { .. } => false,
        FlatExpr::Constant { .. } => false,
        FlatExpr::Not { of, .. } => is_read(of.get(), var),
        FlatExpr::And { parts } => is_read_in(parts.as_slice(), var),
        FlatExpr::Or { parts } => is_read_in(parts.as_slice(), var),
        FlatExpr::Implies { parts } => is_read_in(parts.as_slice(), var),
        FlatExpr::Iff { left, right } => is_read(left.get(), var) || is_read(right.get(), var),
        FlatExpr::Compare { left, right, .. } => {
            is_read(left.get(), var) || is_read(right.get(), var)
        }
        FlatExpr::Within { left, set } => is_read(left.get(), var) || is_read(set.get(), var),
        FlatExpr::Sum { first, more } => {
            is_read(first.get(), var) || is_read_signed(more.as_slice(), var)
        }
        FlatExpr::Modulo { of, .. } => is_read(of.get(), var),
        FlatExpr::Choose { cond, yes, no } => {
            is_read(cond.get(), var) || (is_read(yes.get(), var) || is_read(no.get(), var))
        }
        FlatExpr::All { body, var: own, .. } => var < *own as usize && is_read(body.get(), var),
        FlatExpr::Any { body, var: own, .. } => var < *own as usize && is_read(body.get(), var),
        FlatExpr::List { members, .. } => is_read_by(members.as_slice(), var),
        FlatExpr::Each { var: own, cond, .. } => match cond {
            None => false,
            Some(cond) => var < *own as usize && is_read(cond.get(), var),
        },
    }
}

// Whether it occurs in one of these expressions.
#[cycle(reading)]
#[tactic(auto, using(crate::proofs::ReadingLaws::equations))]
fn is_read_in(parts: &[FlatExpr], var: usize) -> bool
    ensures { result ≡ list_any (occurs var) parts.now }
{
    let mut found = false;
    for part in parts {
        found = found || is_read(part, var);
    }
    found
}

// Whether it occurs in what a sum adds or takes away.
#[cycle(reading)]
#[tactic(auto, using(crate::proofs::ReadingLaws::equations))]
fn is_read_signed(more: &[FlatSigned], var: usize) -> bool
    ensures { result ≡ list_any (occurs_signed var) more.now }
{
    let mut found = false;
    for signed in more {
        found = found || is_read(&signed.of, var);
    }
    found
}

// Whether it occurs in one of these members of a set.
#[cycle(reading)]
#[tactic(auto, using(crate::proofs::ReadingLaws::equations))]
fn is_read_by(members: &[FlatMember], var: usize) -> bool
    ensures { result ≡ list_any (occurs_member var) members.now }
{
    let mut found = false;
    for member in members {
        found = found || is_read_member(member, var);
    }
    found
}

// Whether it occurs in a member of a set.
#[cycle(reading)]
#[tactic(auto, using(crate::proofs::ReadingLaws::equations))]
fn is_read_member(member: &FlatMember, var: usize) -> bool
    ensures { result ≡ occurs_member var member.now }
{
    match member {
        FlatMember::One { of } => is_read(of, var),
        FlatMember::Span { .. } => false,
    }
}

// The variables that an expression of an equation should not read.
ghost use Rattle.std.specs.Prelude.{◌≡◌, map};
ghost use Rattle.smv_splits.specs.Parts as parts;
ghost use Rattle.smv_splits.specs.Parts.{first_among};

use smv_core::flat::{FlatExpr, FlatMember, FlatSigned};
use smv_first_fault::places::{first_of, place_if};

// Whether a variable is one around the split that stands for no parameter.
fn is_stray(standing: &[Option<usize>], var: u16) -> bool
    ensures { result ≡ parts.is_stray standing.now var }
{
    match standing.get(usize::from(var)) {
        Some(place) => place.is_none(),
        None => false,
    }
}

/// The first place of such a variable in an expression.
#[cycle(expressions)]
#[tactic(auto, using(crate::proofs::StrayLaws::equations))]
pub(crate) fn stray_in(standing: &[Option<usize>], x: &FlatExpr) -> Option<u32>
    ensures { result ≡ parts.stray_in standing.now x.now }
{
    match x {
        FlatExpr::Number { .. } => None,
        FlatExpr::Read { indexes, .. } => strays_in(standing, indexes.as_slice()),
        FlatExpr::Var { var, at } => place_if(is_stray(standing, *var), *at),
        FlatExpr::Loop { .. } => None,
        FlatExpr::Constant { .. } => None,
        FlatExpr::Not { of, .. } => stray_in(standing, of.get()),
        FlatExpr::And { parts } => strays_in(standing, parts.as_slice()),
        FlatExpr::Or { parts } => strays_in(standing, parts.as_slice()),
        FlatExpr::Implies { parts } => strays_in(standing, parts.as_slice()),
        FlatExpr::Iff { left, right } => first_of(
            stray_in(standing, left.get()),
            stray_in(standing, right.get()),
        ),
        FlatExpr::Compare { left, right, .. } => first_of(
            stray_in(standing, left.get()),
            stray_in(standing, right.get()),
        ),
        FlatExpr::Within { left, set } => first_of(
            stray_in(standing, left.get()),
            stray_in(standing, set.get()),
        ),
        FlatExpr::Sum { first, more } => first_of(
            stray_in(standing, first.get()),
            signed_strays(standing, more.as_slice()),
        ),
        FlatExpr::Modulo { of, .. } => stray_in(standing, of.get()),
        FlatExpr::Choose { cond, yes, no } => first_of(
            stray_in(standing, cond.get()),
            first_of(stray_in(standing, yes.get()), stray_in(standing, no.get())),
        ),
        FlatExpr::All { body, .. } => stray_in(standing, body.get()),
        FlatExpr::Any { body, .. } => stray_in(standing, body.get()),
        FlatExpr::List { members, .. } => member_strays(standing, members.as_slice()),
        FlatExpr::Each { cond, .. } => match cond {
            None => None,
            Some(cond) => stray_in(standing, cond.get()),
        },
    }
}

#[cycle(expressions)]
#[tactic(auto, using(smv_first_fault::proofs::LeastLaws::leasts))]
fn strays_in(standing: &[Option<usize>], exprs: &[FlatExpr]) -> Option<u32>
    ensures { result ≡ first_among (map (parts.stray_in standing.now) exprs.now) }
{
    let mut found = None;
    for x in exprs {
        found = first_of(found, stray_in(standing, x));
    }
    found
}

#[cycle(expressions)]
#[tactic(auto, using(smv_first_fault::proofs::LeastLaws::leasts))]
fn signed_strays(standing: &[Option<usize>], more: &[FlatSigned]) -> Option<u32>
    ensures { result ≡ first_among (map (parts.signed_stray standing.now) more.now) }
{
    let mut found = None;
    for x in more {
        found = first_of(found, stray_in(standing, &x.of));
    }
    found
}

#[cycle(expressions)]
#[tactic(auto, using(smv_first_fault::proofs::LeastLaws::leasts))]
fn member_strays(standing: &[Option<usize>], members: &[FlatMember]) -> Option<u32>
    ensures { result ≡ first_among (map (parts.member_stray standing.now) members.now) }
{
    let mut found = None;
    for x in members {
        found = first_of(found, member_stray(standing, x));
    }
    found
}

#[cycle(expressions)]
fn member_stray(standing: &[Option<usize>], x: &FlatMember) -> Option<u32>
    ensures { result ≡ parts.member_stray standing.now x.now }
{
    match x {
        FlatMember::One { of } => stray_in(standing, of),
        FlatMember::Span { .. } => None,
    }
}

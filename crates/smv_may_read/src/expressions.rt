// Whether expressions may read one of some elements.
ghost use Rattle.std.specs.Prelude.{◌≡◌};
ghost use Rattle.std.specs.List.{list_any};
ghost use Rattle.smv_may_read.specs.Mentions.{mentions, mentions_signed, mentions_member};

use crate::lefts::may_be_one;
use smv_core::flat::{Element, FlatExpr, FlatMember, FlatSigned};

/// Whether an expression may read one of these elements.
#[cycle(mentions)]
#[tactic(auto, using(crate::proofs::MentionLaws::equations))]
pub fn may_read(elements: &[Element], e: &FlatExpr) -> bool
    ensures { result ≡ mentions elements.now e.now }
{
    match e {
        FlatExpr::Number { .. } => false,
        FlatExpr::Read {
            family,
            indexes,
            ..
        } => {
            may_be_one(elements, *family, indexes.as_slice())
                || some_may_read(elements, indexes.as_slice())
        }
        FlatExpr::Var { .. } => false,
        FlatExpr::Loop { .. } => false,
        FlatExpr::Constant { .. } => false,
        FlatExpr::Not { of, .. } => may_read(elements, of.get()),
        FlatExpr::And { parts } => some_may_read(elements, parts.as_slice()),
        FlatExpr::Or { parts } => some_may_read(elements, parts.as_slice()),
        FlatExpr::Implies { parts } => some_may_read(elements, parts.as_slice()),
        FlatExpr::Iff { left, right } => {
            may_read(elements, left.get()) || may_read(elements, right.get())
        }
        FlatExpr::Compare { left, right, .. } => {
            may_read(elements, left.get()) || may_read(elements, right.get())
        }
        FlatExpr::Within { left, set } => {
            may_read(elements, left.get()) || may_read(elements, set.get())
        }
        FlatExpr::Sum { first, more } => {
            may_read(elements, first.get()) || some_term_may_read(elements, more.as_slice())
        }
        FlatExpr::Modulo { of, .. } => may_read(elements, of.get()),
        FlatExpr::Choose { cond, yes, no } => {
            may_read(elements, cond.get())
                || (may_read(elements, yes.get()) || may_read(elements, no.get()))
        }
        FlatExpr::All { body, .. } => may_read(elements, body.get()),
        FlatExpr::Any { body, .. } => may_read(elements, body.get()),
        FlatExpr::List { members, .. } => some_member_may_read(elements, members.as_slice()),
        FlatExpr::Each { cond, .. } => match cond {
            None => false,
            Some(cond) => may_read(elements, cond.get()),
        },
    }
}

/// Whether one of these expressions may.
#[cycle(mentions)]
pub(crate) fn some_may_read(elements: &[Element], parts: &[FlatExpr]) -> bool
    ensures { result ≡ list_any (mentions elements.now) parts.now }
{
    for part in parts {
        if may_read(elements, part) {
            return true;
        }
    }
    false
}

// Whether what a sum adds or takes away may.
#[cycle(mentions)]
fn some_term_may_read(elements: &[Element], more: &[FlatSigned]) -> bool
    ensures { result ≡ list_any (mentions_signed elements.now) more.now }
{
    for signed in more {
        if may_read(elements, &signed.of) {
            return true;
        }
    }
    false
}

// Whether one of these members of a set may.
#[cycle(mentions)]
fn some_member_may_read(elements: &[Element], members: &[FlatMember]) -> bool
    ensures { result ≡ list_any (mentions_member elements.now) members.now }
{
    for member in members {
        if member_may_read(elements, member) {
            return true;
        }
    }
    false
}

// Whether a member of a set may.
#[cycle(mentions)]
fn member_may_read(elements: &[Element], member: &FlatMember) -> bool
    ensures { result ≡ mentions_member elements.now member.now }
{
    match member {
        FlatMember::One { of } => may_read(elements, of),
        FlatMember::Span { .. } => false,
    }
}

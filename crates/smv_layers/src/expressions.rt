// The first abstract signal that an expression reads.
ghost use Rattle.std.specs.Prelude.{◌≡◌, map};
ghost use Rattle.smv_layers.specs.Leaks as spec;
ghost use Rattle.smv_layers.specs.Leaks.{first_among};

use smv_core::fault::Fault;
use smv_core::flat::{Family, FlatExpr, FlatMember, FlatSigned};
use smv_first_fault::faults::earlier;

/// A fault of this number at a place, where the family is that of an abstract signal.
pub(crate) fn fault_if_abstract(
    families: &[Family],
    number: u8,
    family: u16,
    at: u32,
) -> Option<Fault>
    ensures { result ≡ spec.fault_if_abstract families.now number family at }
{
    match families.get(usize::from(family)) {
        Some(found) => {
            if found.is_abstract {
                Some(Fault { number, at })
            } else {
                None
            }
        }
        None => None,
    }
}

/// The first fault 19 in an expression: an abstract signal is read.
#[cycle(expressions)]
#[tactic(auto, using(crate::proofs::ExpressionLaws::equations))]
pub fn read_fault(families: &[Family], x: &FlatExpr) -> Option<Fault>
    ensures { result ≡ spec.read_fault families.now x.now }
{
    match x {
        FlatExpr::Number { .. } => None,
        FlatExpr::Read {
            family,
            indexes,
            at,
        } => earlier(
            fault_if_abstract(families, 19, *family, *at),
            read_faults(families, indexes.as_slice()),
        ),
        FlatExpr::Var { .. } => None,
        FlatExpr::Loop { .. } => None,
        FlatExpr::Constant { .. } => None,
        FlatExpr::Not { of, .. } => read_fault(families, of.get()),
        FlatExpr::And { parts } => read_faults(families, parts.as_slice()),
        FlatExpr::Or { parts } => read_faults(families, parts.as_slice()),
        FlatExpr::Implies { parts } => read_faults(families, parts.as_slice()),
        FlatExpr::Iff { left, right } => earlier(
            read_fault(families, left.get()),
            read_fault(families, right.get()),
        ),
        FlatExpr::Compare { left, right, .. } => earlier(
            read_fault(families, left.get()),
            read_fault(families, right.get()),
        ),
        FlatExpr::Within { left, set } => earlier(
            read_fault(families, left.get()),
            read_fault(families, set.get()),
        ),
        FlatExpr::Sum { first, more } => earlier(
            read_fault(families, first.get()),
            signed_faults(families, more.as_slice()),
        ),
        FlatExpr::Modulo { of, .. } => read_fault(families, of.get()),
        FlatExpr::Choose { cond, yes, no } => earlier(
            read_fault(families, cond.get()),
            earlier(
                read_fault(families, yes.get()),
                read_fault(families, no.get()),
            ),
        ),
        FlatExpr::All { body, .. } => read_fault(families, body.get()),
        FlatExpr::Any { body, .. } => read_fault(families, body.get()),
        FlatExpr::List { members, .. } => member_faults(families, members.as_slice()),
        FlatExpr::Each { cond, .. } => match cond {
            None => None,
            Some(cond) => read_fault(families, cond.get()),
        },
    }
}

/// The first fault 19 in some expressions.
#[cycle(expressions)]
#[tactic(auto, using(crate::proofs::FaultLaws::in_turn))]
pub(crate) fn read_faults(families: &[Family], parts: &[FlatExpr]) -> Option<Fault>
    ensures { result ≡ first_among (map (spec.read_fault families.now) parts.now) }
{
    let mut found = None;
    for x in parts {
        found = earlier(found, read_fault(families, x));
    }
    found
}

#[cycle(expressions)]
#[tactic(auto, using(crate::proofs::FaultLaws::in_turn))]
fn signed_faults(families: &[Family], more: &[FlatSigned]) -> Option<Fault>
    ensures { result ≡ first_among (map (spec.signed_fault families.now) more.now) }
{
    let mut found = None;
    for x in more {
        found = earlier(found, read_fault(families, &x.of));
    }
    found
}

#[cycle(expressions)]
#[tactic(auto, using(crate::proofs::FaultLaws::in_turn))]
fn member_faults(families: &[Family], members: &[FlatMember]) -> Option<Fault>
    ensures { result ≡ first_among (map (spec.member_fault families.now) members.now) }
{
    let mut found = None;
    for x in members {
        found = earlier(found, member_fault(families, x));
    }
    found
}

#[cycle(expressions)]
fn member_fault(families: &[Family], x: &FlatMember) -> Option<Fault>
    ensures { result ≡ spec.member_fault families.now x.now }
{
    match x {
        FlatMember::One { of } => read_fault(families, of),
        FlatMember::Span { .. } => None,
    }
}

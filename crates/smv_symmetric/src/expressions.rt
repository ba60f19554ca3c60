// The first fault of set types in an expression.
ghost use Rattle.std.specs.Prelude.{◌≡◌, [], map, IfOk};
ghost use Rattle.law_designs.specs.FlatKinds as kinds;
ghost use Rattle.law_designs.specs.FlatKinds.{kind_of};
ghost use Rattle.smv_symmetric.specs.Plain as plain;

use crate::operands::{add_members, disordered, met, operand_of, wanted_at};
use smv_core::fault::Fault;
use smv_core::flat::{FlatExpr, FlatMember, FlatSigned, FlatText, Simple};
use smv_core::tree::Op;
use smv_first_fault::faults::earlier;
use std::alloc::{AllocError, Global};

/// The variables that are bound, with one more over this type.
#[tactic(auto, using(smv_mentions::proofs::Notes::noting))]
pub fn inside(alloc: Global, vars: &[Simple], over: Simple) -> Result<Vec<Simple>, AllocError>
    ensures { IfOk result (λ inner. map kind_of inner.items ≡ kinds.inside (map kind_of vars.now) over) }
{
    let mut inner = Vec::new(alloc);
    inner.extend_from_slice(vars)?;
    inner.push(over)?;
    Ok(inner)
}

// The first fault of the two sides of a comparison, besides those inside them.
fn compared(
    flat_text: &FlatText,
    vars: &[Simple],
    op: Op,
    left: &FlatExpr,
    right: &FlatExpr,
) -> Option<Fault>
    ensures { result ≡ plain.compared flat_text.now (map kind_of vars.now) op left.now right.now }
{
    let left = operand_of(flat_text, vars, left);
    let right = operand_of(flat_text, vars, right);
    let order = earlier(
        disordered(flat_text, op, left),
        disordered(flat_text, op, right),
    );
    earlier(met(&[left, right]), order)
}

// The same of two branches of `?:`.
fn chosen(flat_text: &FlatText, vars: &[Simple], yes: &FlatExpr, no: &FlatExpr) -> Option<Fault>
    ensures { result ≡ plain.chosen flat_text.now (map kind_of vars.now) yes.now no.now }
{
    met(&[
        operand_of(flat_text, vars, yes),
        operand_of(flat_text, vars, no),
    ])
}

// The same of the members of a listed set.
fn listed(
    alloc: Global,
    flat_text: &FlatText,
    vars: &[Simple],
    members: &[FlatMember],
) -> Result<Option<Fault>, AllocError>
    ensures { IfOk result (λ fault. fault ≡ plain.listed flat_text.now (map kind_of vars.now) members.now) }
{
    let mut operands = Vec::new(alloc);
    add_members(&mut operands, flat_text, vars, members)?;
    Ok(met(&operands))
}

// The same of what is left of `in` with the members that are listed there.
fn looked_for(
    alloc: Global,
    flat_text: &FlatText,
    vars: &[Simple],
    left: &FlatExpr,
    set: &FlatExpr,
) -> Result<Option<Fault>, AllocError>
    ensures { IfOk result (λ fault. fault ≡ plain.looked_for flat_text.now (map kind_of vars.now) left.now set.now) }
{
    let mut operands = Vec::new(alloc);
    operands.push(operand_of(flat_text, vars, left))?;
    add_members(&mut operands, flat_text, vars, members_of(set))?;
    Ok(met(&operands))
}

// The members of a listed set.
#[tactic(auto, using(crate::proofs::ExpressionEquations::lists))]
fn members_of(set: &FlatExpr) -> &[FlatMember]
    ensures { result.now ≡ plain.members_of set.now }
{
    match set {
        FlatExpr::List { members, .. } => members.as_slice(),
        FlatExpr::Number { .. } | FlatExpr::Var { .. } | FlatExpr::Constant { .. } => &[],
        FlatExpr::Read { .. } | FlatExpr::Not { .. } | FlatExpr::And { .. } => &[],
        FlatExpr::Or { .. } | FlatExpr::Implies { .. } | FlatExpr::Iff { .. } => &[],
        FlatExpr::Compare { .. } | FlatExpr::Within { .. } | FlatExpr::Sum { .. } => &[],
        FlatExpr::Modulo { .. } | FlatExpr::Choose { .. } | FlatExpr::All { .. } => &[],
        FlatExpr::Any { .. } | FlatExpr::Loop { .. } | FlatExpr::Each { .. } => &[],
    }
}

/// The first fault of set types in an expression inside these variables.
#[cycle(expressions)]
#[tactic(auto, using(crate::proofs::ExpressionEquations::equations))]
pub(crate) fn fault_in(
    alloc: Global,
    flat_text: &FlatText,
    vars: &[Simple],
    x: &FlatExpr,
) -> Result<Option<Fault>, AllocError>
    ensures { IfOk result (λ fault. fault ≡ plain.fault_in flat_text.now (map kind_of vars.now) x.now) }
{
    match x {
        FlatExpr::Number { .. } => Ok(None),
        FlatExpr::Read {
            family,
            indexes,
            ..
        } => {
            let parts = faults_in(alloc, flat_text, vars, indexes.as_slice())?;
            Ok(earlier(
                parts,
                wanted_at(flat_text, *family, vars, indexes.as_slice()),
            ))
        }
        FlatExpr::Var { .. } => Ok(None),
        FlatExpr::Loop { .. } => Ok(None),
        FlatExpr::Constant { .. } => Ok(None),
        FlatExpr::Not { of, .. } => fault_in(alloc, flat_text, vars, of.get()),
        FlatExpr::And { parts } => faults_in(alloc, flat_text, vars, parts.as_slice()),
        FlatExpr::Or { parts } => faults_in(alloc, flat_text, vars, parts.as_slice()),
        FlatExpr::Implies { parts } => faults_in(alloc, flat_text, vars, parts.as_slice()),
        FlatExpr::Iff { left, right } => {
            let first = fault_in(alloc, flat_text, vars, left.get())?;
            let second = fault_in(alloc, flat_text, vars, right.get())?;
            Ok(earlier(first, second))
        }
        FlatExpr::Compare { op, left, right } => {
            let first = fault_in(alloc, flat_text, vars, left.get())?;
            let second = fault_in(alloc, flat_text, vars, right.get())?;
            let parts = earlier(first, second);
            Ok(earlier(
                parts,
                compared(flat_text, vars, *op, left.get(), right.get()),
            ))
        }
        FlatExpr::Within { left, set } => {
            let first = fault_in(alloc, flat_text, vars, left.get())?;
            let second = fault_in(alloc, flat_text, vars, set.get())?;
            let other = looked_for(alloc, flat_text, vars, left.get(), set.get())?;
            Ok(earlier(earlier(first, second), other))
        }
        FlatExpr::Sum { first, more } => {
            let head = fault_in(alloc, flat_text, vars, first.get())?;
            let other = signed_faults(alloc, flat_text, vars, more.as_slice())?;
            Ok(earlier(head, other))
        }
        FlatExpr::Modulo { of, .. } => fault_in(alloc, flat_text, vars, of.get()),
        FlatExpr::Choose { cond, yes, no } => {
            let first = fault_in(alloc, flat_text, vars, cond.get())?;
            let second = fault_in(alloc, flat_text, vars, yes.get())?;
            let third = fault_in(alloc, flat_text, vars, no.get())?;
            let parts = earlier(first, earlier(second, third));
            Ok(earlier(parts, chosen(flat_text, vars, yes.get(), no.get())))
        }
        FlatExpr::All { body, over, .. } => bound_fault(alloc, flat_text, vars, *over, body.get()),
        FlatExpr::Any { body, over, .. } => bound_fault(alloc, flat_text, vars, *over, body.get()),
        FlatExpr::List { members, .. } => {
            let parts = member_faults(alloc, flat_text, vars, members.as_slice())?;
            let other = listed(alloc, flat_text, vars, members.as_slice())?;
            Ok(earlier(parts, other))
        }
        FlatExpr::Each { over, cond, .. } => match cond {
            None => Ok(None),
            Some(cond) => bound_fault(alloc, flat_text, vars, *over, cond.get()),
        },
    }
}

// The first fault in an expression inside one more variable.
#[cycle(expressions)]
fn bound_fault(
    alloc: Global,
    flat_text: &FlatText,
    vars: &[Simple],
    over: Simple,
    x: &FlatExpr,
) -> Result<Option<Fault>, AllocError>
    ensures { IfOk result (λ fault. fault ≡ plain.fault_in flat_text.now (kinds.inside (map kind_of vars.now) over) x.now) }
{
    let inner = inside(alloc, vars, over)?;
    fault_in(alloc, flat_text, inner.as_slice(), x)
}

/// The first fault in some expressions.
#[cycle(expressions)]
#[tactic(auto, using(crate::proofs::TurnLaws::in_turn))]
pub fn faults_in(
    alloc: Global,
    flat_text: &FlatText,
    vars: &[Simple],
    parts: &[FlatExpr],
) -> Result<Option<Fault>, AllocError>
    ensures { IfOk result (λ fault. fault ≡ plain.first_among (map (plain.fault_in flat_text.now (map kind_of vars.now)) parts.now)) }
{
    let mut found = None;
    for x in parts {
        let fault = fault_in(alloc, flat_text, vars, x)?;
        found = earlier(found, fault);
    }
    Ok(found)
}

#[cycle(expressions)]
#[tactic(auto, using(crate::proofs::TurnLaws::in_turn))]
fn signed_faults(
    alloc: Global,
    flat_text: &FlatText,
    vars: &[Simple],
    more: &[FlatSigned],
) -> Result<Option<Fault>, AllocError>
    ensures { IfOk result (λ fault. fault ≡ plain.first_among (map (plain.signed_fault flat_text.now (map kind_of vars.now)) more.now)) }
{
    let mut found = None;
    for x in more {
        let fault = fault_in(alloc, flat_text, vars, &x.of)?;
        found = earlier(found, fault);
    }
    Ok(found)
}

#[cycle(expressions)]
#[tactic(auto, using(crate::proofs::TurnLaws::in_turn))]
fn member_faults(
    alloc: Global,
    flat_text: &FlatText,
    vars: &[Simple],
    members: &[FlatMember],
) -> Result<Option<Fault>, AllocError>
    ensures { IfOk result (λ fault. fault ≡ plain.first_among (map (plain.member_fault flat_text.now (map kind_of vars.now)) members.now)) }
{
    let mut found = None;
    for x in members {
        let fault = member_fault(alloc, flat_text, vars, x)?;
        found = earlier(found, fault);
    }
    Ok(found)
}

#[cycle(expressions)]
fn member_fault(
    alloc: Global,
    flat_text: &FlatText,
    vars: &[Simple],
    x: &FlatMember,
) -> Result<Option<Fault>, AllocError>
    ensures { IfOk result (λ fault. fault ≡ plain.member_fault flat_text.now (map kind_of vars.now) x.now) }
{
    match x {
        FlatMember::One { of } => fault_in(alloc, flat_text, vars, of),
        FlatMember::Span { .. } => Ok(None),
    }
}

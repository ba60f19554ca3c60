// What meets a set type.
ghost use Rattle.std.specs.Prelude.{◌≡◌, map, flat_map, zip, slice_get, Some, OnOk, ◌++◌};
ghost use Rattle.std.specs.List.{list_any};
ghost use Rattle.smv_mentions.specs.FirstFault.{first_of};
ghost use Rattle.law_designs.specs.FlatKinds.{kind_of};
ghost use Rattle.law_designs.specs.SetOperands as spec;
ghost use Rattle.smv_symmetric.specs.Plain as plain;
ghost use Rattle.smv_symmetric.specs.Held.{as_met};

use crate::kinds::{Kind, kind_in, kind_of};
use smv_core::fault::Fault;
use smv_core::flat::{FlatExpr, FlatMember, FlatText, SetInfo, Simple};
use smv_core::tree::Op;
use smv_first_fault::faults::earlier;
use std::alloc::AllocError;

/// An operand: its kind, its place, and whether it is the variable of a `for` alone.
#[derive(Clone, Copy)]
pub struct Operand {
    pub kind: Kind,
    pub at: u32,
    pub is_loop: bool,
}

// The place of an expression: its first token other than `(`.
#[cycle(places)]
#[tactic(auto, using(crate::proofs::PlaceEquations::equations))]
fn first_at(x: &FlatExpr) -> u32
    ensures { result ≡ plain.place x.now }
{
    match x {
        FlatExpr::Number { at, .. } => *at,
        FlatExpr::Read { at, .. } => *at,
        FlatExpr::Var { at, .. } => *at,
        FlatExpr::Loop { at, .. } => *at,
        FlatExpr::Constant { at, .. } => *at,
        FlatExpr::Not { at, .. } => *at,
        FlatExpr::And { parts } => first_place(parts.as_slice()),
        FlatExpr::Or { parts } => first_place(parts.as_slice()),
        FlatExpr::Implies { parts } => first_place(parts.as_slice()),
        FlatExpr::Iff { left, .. } => first_at(left.get()),
        FlatExpr::Compare { left, .. } => first_at(left.get()),
        FlatExpr::Within { left, .. } => first_at(left.get()),
        FlatExpr::Sum { first, .. } => first_at(first.get()),
        FlatExpr::Modulo { of, .. } => first_at(of.get()),
        FlatExpr::Choose { cond, .. } => first_at(cond.get()),
        FlatExpr::All { at, .. } => *at,
        FlatExpr::Any { at, .. } => *at,
        FlatExpr::List { at, .. } => *at,
        FlatExpr::Each { at, .. } => *at,
    }
}

#[cycle(places)]
fn first_place(parts: &[FlatExpr]) -> u32
    ensures { result ≡ plain.first_place parts.now }
{
    match parts {
        [first, ..] => first_at(first),
        [] => 0,
    }
}

// The variable of a `for` that is written out, alone.
fn is_loop(x: &FlatExpr) -> bool
    ensures { result ≡ spec.is_loop x.now }
{
    match x {
        FlatExpr::Loop { .. } => true,
        FlatExpr::Number { .. } | FlatExpr::Var { .. } | FlatExpr::Constant { .. } => false,
        FlatExpr::Read { .. } | FlatExpr::Not { .. } | FlatExpr::And { .. } => false,
        FlatExpr::Or { .. } | FlatExpr::Implies { .. } | FlatExpr::Iff { .. } => false,
        FlatExpr::Compare { .. } | FlatExpr::Within { .. } | FlatExpr::Sum { .. } => false,
        FlatExpr::Modulo { .. } | FlatExpr::Choose { .. } | FlatExpr::All { .. } => false,
        FlatExpr::Any { .. } | FlatExpr::List { .. } | FlatExpr::Each { .. } => false,
    }
}

/// An expression as an operand, inside these variables.
#[tactic(auto, unfolding(crate::specs::Plain::place))]
pub(crate) fn operand_of(flat_text: &FlatText, vars: &[Simple], x: &FlatExpr) -> Operand
    ensures { as_met result ≡ plain.operand flat_text.now (map kind_of vars.now) x.now }
{
    Operand {
        kind: kind_in(flat_text, vars, x),
        at: first_at(x),
        is_loop: is_loop(x),
    }
}

// A member of a listed set: the numbers of a span are one operand.
fn member_operand(flat_text: &FlatText, vars: &[Simple], x: &FlatMember) -> Operand
    ensures { as_met result ≡ plain.member_operand flat_text.now (map kind_of vars.now) x.now }
{
    match x {
        FlatMember::One { of } => operand_of(flat_text, vars, of),
        FlatMember::Span { at, .. } => Operand {
            kind: Kind::Number,
            at: *at,
            is_loop: false,
        },
    }
}

/// These members more.
#[tactic(auto, using(smv_mentions::proofs::Notes::noting))]
pub fn add_members(
    out: &mut Vec<Operand>,
    flat_text: &FlatText,
    vars: &[Simple],
    members: &[FlatMember],
) -> Result<(), AllocError>
    ensures { OnOk result (map as_met out.new.items ≡ map as_met out.old.items ++ map (plain.member_operand flat_text.now (map kind_of vars.now)) members.now) }
{
    for x in members {
        out.push(member_operand(flat_text, vars, x))?;
    }
    Ok(())
}

fn is_number(x: Operand) -> bool
    ensures { result ≡ spec.is_number (as_met x).kind }
{
    match x.kind {
        Kind::Number => true,
        Kind::Enumeration { .. } => false,
        Kind::SetType { .. } => false,
    }
}

fn is_of_set(x: Operand) -> bool
    ensures { result ≡ spec.is_of_set (as_met x).kind }
{
    match x.kind {
        Kind::Number => false,
        Kind::Enumeration { .. } => false,
        Kind::SetType { .. } => true,
    }
}

// A number that meets a set type: fault 22 where it is the variable of a `for` alone.
fn number_fault(x: Operand) -> Fault
    ensures { result ≡ spec.number_fault (as_met x) }
{
    Fault {
        number: if x.is_loop { 22 } else { 21 },
        at: x.at,
    }
}

// The same, where the operand is a number.
fn fault_if_number(x: Operand) -> Option<Fault>
    ensures { result ≡ plain.fault_if_number (as_met x) }
{
    if is_number(x) {
        Some(number_fault(x))
    } else {
        None
    }
}

// The first of these that is a number.
#[tactic(auto, using(crate::proofs::TurnLaws::in_turn))]
fn first_number(operands: &[Operand]) -> Option<Fault>
    ensures { result ≡ plain.first_among (map plain.fault_if_number (map as_met operands.now)) }
{
    let mut found = None;
    for x in operands {
        found = earlier(found, fault_if_number(*x));
    }
    found
}

// One of these is a value of a set type.
fn has_set(operands: &[Operand]) -> bool
    ensures { result ≡ list_any (λ x. spec.is_of_set x.kind) (map as_met operands.now) }
{
    for x in operands {
        if is_of_set(*x) {
            return true;
        }
    }
    false
}

/// The first fault of operands that meet: of these, where one is a value of a set type, each number is at fault.
pub fn met(operands: &[Operand]) -> Option<Fault>
    ensures { result ≡ first_of (spec.met (map as_met operands.now)) }
{
    if has_set(operands) {
        first_number(operands)
    } else {
        None
    }
}

/// A number where a value of this type is wanted, if it is a set type.
pub fn wanted(over: Simple, x: Operand) -> Option<Fault>
    ensures { result ≡ first_of (spec.wanted over (as_met x)) }
{
    match over {
        Simple::Set { .. } => fault_if_number(x),
        Simple::Range { .. } => None,
        Simple::Enum { .. } => None,
    }
}

// The first fault of indexes over these types.
#[tactic(auto, using(crate::proofs::TurnLaws::in_turn))]
fn wanted_each(
    flat_text: &FlatText,
    vars: &[Simple],
    over: &[Simple],
    indexes: &[FlatExpr],
) -> Option<Fault>
    ensures { result ≡ first_of (flat_map (λ (t, x). spec.wanted t x) (zip over.now (map (plain.operand flat_text.now (map kind_of vars.now)) indexes.now))) }
{
    match over {
        [] => None,
        [t, others @ ..] => match indexes {
            [] => None,
            [x, more @ ..] => earlier(
                wanted(*t, operand_of(flat_text, vars, x)),
                wanted_each(flat_text, vars, others, more),
            ),
        },
    }
}

/// The first fault of the indexes of an element of a family.
pub(crate) fn wanted_at(
    flat_text: &FlatText,
    family: u16,
    vars: &[Simple],
    indexes: &[FlatExpr],
) -> Option<Fault>
    ensures { result ≡ first_of (spec.wanted_at (slice_get flat_text.now.families family) (map (plain.operand flat_text.now (map kind_of vars.now)) indexes.now)) }
{
    match flat_text.families.as_slice().get(usize::from(family)) {
        Some(found) => wanted_each(flat_text, vars, found.over.as_slice(), indexes),
        None => None,
    }
}

/// The fault of a value of an element of a family.
pub(crate) fn wanted_of(flat_text: &FlatText, family: u16, x: Operand) -> Option<Fault>
    ensures { result ≡ first_of (spec.wanted_of (slice_get flat_text.now.families family) (as_met x)) }
{
    match flat_text.families.as_slice().get(usize::from(family)) {
        Some(found) => wanted(found.value, x),
        None => None,
    }
}

fn is_order(op: Op) -> bool
    ensures { result ≡ spec.is_order op }
{
    match op {
        Op::Equal => false,
        Op::Differ => false,
        Op::Less => true,
        Op::AtMost => true,
        Op::Greater => true,
        Op::AtLeast => true,
    }
}

// A set type without an order.
fn is_unordered(sets: &[SetInfo], set: u16) -> bool
    ensures { result ≡ spec.is_unordered (slice_get sets.now set) }
{
    match sets.get(usize::from(set)) {
        Some(info) => !info.ordered,
        None => false,
    }
}

// A value of a set type without an order.
fn lacks_order(sets: &[SetInfo], x: Operand) -> bool
    ensures { result ≡ spec.lacks_order sets.now (as_met x).kind }
{
    match x.kind {
        Kind::SetType { set } => is_unordered(sets, set),
        Kind::Number => false,
        Kind::Enumeration { .. } => false,
    }
}

/// The fault of a value of a scalarset beside an order.
pub(crate) fn disordered(flat_text: &FlatText, op: Op, x: Operand) -> Option<Fault>
    ensures { result ≡ first_of (spec.disordered flat_text.now.sets op (as_met x)) }
{
    if is_order(op) && lacks_order(flat_text.sets.as_slice(), x) {
        Some(Fault {
            number: 21,
            at: x.at,
        })
    } else {
        None
    }
}

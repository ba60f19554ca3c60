// The kinds of expressions that have one.
ghost use Rattle.std.specs.Prelude.{◌≡◌, map, slice_get};
ghost use Rattle.law_designs.specs.FlatKinds as spec;
ghost use Rattle.smv_symmetric.specs.Plain as plain;
ghost use Rattle.smv_symmetric.specs.Held.{held};

use smv_core::flat::{FlatExpr, FlatMember, FlatText, Simple};

/// What sort of value an expression has: a number, a constant of an enumeration, or a value of a set type, by their numbers.
#[derive(Clone, Copy)]
pub enum Kind {
    Number,
    Enumeration { list: u16 },
    SetType { set: u16 },
}

/// The kind of the values of a type.
pub fn kind_of(over: Simple) -> Kind
    ensures { held result ≡ spec.kind_of over }
{
    match over {
        Simple::Range { .. } => Kind::Number,
        Simple::Enum { list } => Kind::Enumeration { list },
        Simple::Set { set } => Kind::SetType { set },
    }
}

// The kind of two that stand side by side.
fn joined(kind: Kind, other: Kind) -> Kind
    ensures { held result ≡ spec.joined (held kind) (held other) }
{
    match kind {
        Kind::Number => match other {
            Kind::SetType { set } => Kind::SetType { set },
            Kind::Number => kind,
            Kind::Enumeration { .. } => kind,
        },
        Kind::Enumeration { .. } => kind,
        Kind::SetType { .. } => kind,
    }
}

// The kind of an element of a family.
fn value_kind(flat_text: &FlatText, family: u16) -> Kind
    ensures { held result ≡ plain.value_kind (slice_get flat_text.now.families family) }
{
    match flat_text.families.as_slice().get(usize::from(family)) {
        Some(found) => kind_of(found.value),
        None => Kind::Number,
    }
}

// The kind of a variable.
fn variable_kind(vars: &[Simple], var: u16) -> Kind
    ensures { held result ≡ plain.variable_kind (slice_get (map spec.kind_of vars.now) var) }
{
    match vars.get(usize::from(var)) {
        Some(over) => kind_of(*over),
        None => Kind::Number,
    }
}

/// The kind of an expression inside these variables.
#[cycle(kinds)]
#[tactic(auto, using(crate::proofs::KindEquations::equations))]
pub(crate) fn kind_in(flat_text: &FlatText, vars: &[Simple], x: &FlatExpr) -> Kind
    ensures { held result ≡ plain.kind_in flat_text.now (map spec.kind_of vars.now) x.now }
{
    match x {
        FlatExpr::Read { family, .. } => value_kind(flat_text, *family),
        FlatExpr::Var { var, .. } => variable_kind(vars, *var),
        FlatExpr::Constant { list, .. } => Kind::Enumeration { list: *list },
        FlatExpr::Choose { yes, no, .. } => {
            joined(
                kind_in(flat_text, vars, yes.get()),
                kind_in(flat_text, vars, no.get()),
            )
        }
        FlatExpr::List { members, .. } => members_kind(flat_text, vars, members.as_slice()),
        FlatExpr::Each { over, .. } => kind_of(*over),
        FlatExpr::Number { .. } | FlatExpr::Loop { .. } | FlatExpr::Not { .. } => Kind::Number,
        FlatExpr::And { .. } | FlatExpr::Or { .. } | FlatExpr::Implies { .. } => Kind::Number,
        FlatExpr::Iff { .. } | FlatExpr::Compare { .. } | FlatExpr::Within { .. } => Kind::Number,
        FlatExpr::Sum { .. } | FlatExpr::Modulo { .. } => Kind::Number,
        FlatExpr::All { .. } | FlatExpr::Any { .. } => Kind::Number,
    }
}

// The kind of all members of a listed set together.
#[cycle(kinds)]
fn members_kind(flat_text: &FlatText, vars: &[Simple], members: &[FlatMember]) -> Kind
    ensures { held result ≡ plain.joined_all (map (plain.member_kind flat_text.now (map spec.kind_of vars.now)) members.now) }
{
    match members {
        [] => Kind::Number,
        [first, more @ ..] => {
            let mut kind = member_kind(flat_text, vars, first);
            for x in more {
                kind = joined(kind, member_kind(flat_text, vars, x));
            }
            kind
        }
    }
}

// The kind of a member: the numbers of a span are numbers.
#[cycle(kinds)]
fn member_kind(flat_text: &FlatText, vars: &[Simple], x: &FlatMember) -> Kind
    ensures { held result ≡ plain.member_kind flat_text.now (map spec.kind_of vars.now) x.now }
{
    match x {
        FlatMember::One { of } => kind_in(flat_text, vars, of),
        FlatMember::Span { .. } => Kind::Number,
    }
}

// Values that an assignment gives its signal and that the signal's type does not have.
ghost use Rattle.std.specs.Prelude.{◌≡◌, ◌++◌, flat_map, slice_get, OnOk};
ghost use Rattle.smv_indexes.specs.Indexes.{index_of};
ghost use Rattle.smv_look_lint.specs.Held.{member_strays, stray_of};
ghost use Rattle.smv_look_lint.specs.Strays as spec;
ghost use Rattle.smv_look_lint.specs.Strays.{def_strays, part_strays, stray, stray_span, strays, strays_of_def};

use crate::warnings::{Flaw, Warning};
use smv_core::flat::{Def, DefBody, Family, FlatExpr, FlatMember, Simple};
use smv_core::tree::Span;
use smv_indexes::{Index, known};
use smv_look_bounds::{family_at, first_at};
use std::alloc::AllocError;

// A type has this number.
fn has(over: Simple, value: Option<u16>) -> bool
    ensures { result ≡ spec.has over value }
{
    match over {
        Simple::Range { low, high } => match value {
            Some(k) => u16::from(low) <= k && k <= u16::from(high),
            None => false,
        },
        Simple::Enum { list: _ } => false,
        Simple::Set { set: _ } => false,
    }
}

// A type has all numbers of a span.
fn has_all(over: Simple, span: Span) -> bool
    ensures { result ≡ spec.has_all over span }
{
    has(over, Some(span.low)) && has(over, Some(span.high))
}

// Notes a value that the text alone tells, where its type does not have it.
fn push_stray(
    out: &mut Vec<Warning>,
    family: u16,
    over: Simple,
    at: u32,
    index: Index,
) -> Result<(), AllocError>
    ensures { OnOk result (out.new.items ≡ out.old.items ++ stray family over at (index_of index)) }
{
    match index {
        Index::Fixed { value } => {
            if has(over, value) {
                return Ok(());
            }
            let flaw = Flaw::Stray { value };
            out.push(Warning { family, flaw, at })?;
            Ok(())
        }
        Index::Bare { .. } => Ok(()),
        Index::Computed => Ok(()),
    }
}

// Notes the numbers of a set, where their type does not have all of them.
fn push_span(
    out: &mut Vec<Warning>,
    family: u16,
    over: Simple,
    span: Span,
    at: u32,
) -> Result<(), AllocError>
    ensures { OnOk result (out.new.items ≡ out.old.items ++ stray_span family over span at) }
{
    if has_all(over, span) {
        return Ok(());
    }
    let flaw = Flaw::StraySpan { span };
    out.push(Warning { family, flaw, at })?;
    Ok(())
}

// Notes the value of an expression that is neither a set nor a `?:`.
#[tactic(auto, unfolding(crate::specs::Held::stray_of, smv_look_bounds::specs::Places::place))]
fn push_constant(
    out: &mut Vec<Warning>,
    family: u16,
    over: Simple,
    x: &FlatExpr,
) -> Result<(), AllocError>
    ensures { OnOk result (out.new.items ≡ out.old.items ++ stray_of family over x.now) }
{
    push_stray(out, family, over, first_at(x), known(x))
}

// Notes those that a right side gives.
#[cycle(sides)]
#[tactic(auto, using(crate::proofs::StrayEquations::equations, crate::proofs::Listing::listing))]
fn push_strays(
    out: &mut Vec<Warning>,
    family: u16,
    over: Simple,
    x: &FlatExpr,
) -> Result<(), AllocError>
    ensures { OnOk result (out.new.items ≡ out.old.items ++ strays family over x.now) }
{
    match x {
        FlatExpr::Number { .. } => push_constant(out, family, over, x),
        FlatExpr::Loop { .. } => push_constant(out, family, over, x),
        FlatExpr::Sum { .. } => push_constant(out, family, over, x),
        FlatExpr::Modulo { .. } => push_constant(out, family, over, x),
        FlatExpr::List { members, .. } => push_members(out, family, over, members.as_slice()),
        FlatExpr::Choose { yes, no, .. } => {
            push_strays(out, family, over, yes.get())?;
            push_strays(out, family, over, no.get())
        }
        FlatExpr::Read { .. } => Ok(()),
        FlatExpr::Var { .. } => Ok(()),
        FlatExpr::Constant { .. } => Ok(()),
        FlatExpr::Not { .. } => Ok(()),
        FlatExpr::And { .. } => Ok(()),
        FlatExpr::Or { .. } => Ok(()),
        FlatExpr::Implies { .. } => Ok(()),
        FlatExpr::Iff { .. } => Ok(()),
        FlatExpr::Compare { .. } => Ok(()),
        FlatExpr::Within { .. } => Ok(()),
        FlatExpr::All { .. } => Ok(()),
        FlatExpr::Any { .. } => Ok(()),
        FlatExpr::Each { .. } => Ok(()),
    }
}

#[cycle(sides)]
#[tactic(auto, using(crate::proofs::Listing::listing))]
fn push_members(
    out: &mut Vec<Warning>,
    family: u16,
    over: Simple,
    members: &[FlatMember],
) -> Result<(), AllocError>
    ensures { OnOk result (out.new.items ≡ out.old.items ++ flat_map (member_strays family over) members.now) }
{
    for member in members {
        match member {
            FlatMember::One { of } => push_strays(out, family, over, of)?,
            FlatMember::Span { span, at } => push_span(out, family, over, *span, *at)?,
        }
    }
    Ok(())
}

// Notes those of a part of a definition.
#[cycle(parts)]
#[tactic(auto, using(crate::proofs::PartEquations::equations, crate::proofs::Listing::listing))]
fn push_part(
    out: &mut Vec<Warning>,
    family: u16,
    over: Simple,
    part: &DefBody,
) -> Result<(), AllocError>
    ensures { OnOk result (out.new.items ≡ out.old.items ++ part_strays family over part.now) }
{
    match part {
        DefBody::Nothing => Ok(()),
        DefBody::Assign { value, .. } => push_strays(out, family, over, value),
        DefBody::If { yes, no, .. } => {
            push_part(out, family, over, yes.get())?;
            push_part(out, family, over, no.get())
        }
        DefBody::First { parts } => push_parts(out, family, over, parts.as_slice()),
        DefBody::Forall { body, .. } => push_part(out, family, over, body.get()),
    }
}

#[cycle(parts)]
#[tactic(auto, using(crate::proofs::Listing::listing))]
fn push_parts(
    out: &mut Vec<Warning>,
    family: u16,
    over: Simple,
    parts: &[DefBody],
) -> Result<(), AllocError>
    ensures { OnOk result (out.new.items ≡ out.old.items ++ flat_map (part_strays family over) parts.now) }
{
    for part in parts {
        push_part(out, family, over, part)?;
    }
    Ok(())
}

// Notes those of a definition, where its signal has values of this type.
#[tactic(auto, using(crate::proofs::Listing::listing), unfolding(crate::specs::Strays::strays_of_def))]
fn push_all(out: &mut Vec<Warning>, over: Simple, def: &Def) -> Result<(), AllocError>
    ensures { OnOk result (out.new.items ≡ out.old.items ++ strays_of_def over def.now) }
{
    push_part(out, def.family, over, &def.init)?;
    push_part(out, def.family, over, &def.next)?;
    push_part(out, def.family, over, &def.comb)
}

/// Notes the values that a definition gives its signal and that the signal's type does not have.
#[tactic(auto, using(crate::proofs::Listing::listing))]
pub(crate) fn push_def(
    out: &mut Vec<Warning>,
    families: &[Family],
    def: &Def,
) -> Result<(), AllocError>
    ensures { OnOk result (out.new.items ≡ out.old.items ++ def_strays (slice_get families.now def.now.family) def.now) }
{
    match family_at(families, def.family) {
        None => Ok(()),
        Some(family) => push_all(out, family.value, def),
    }
}

// Copies of names and lists of types, and of what a problem takes over from a design: families, guards, and the parts of definitions.
ghost use Rattle.std.specs.Prelude.{◌≡◌, IfOk};

use crate::flat::{copy_expression, copy_expressions};
use smv_core::boxed::Boxed;
use smv_core::flat::{Class, DefBody, Family, Guard, Simple};
use smv_core::{Name, Seq};
use std::alloc::{AllocError, Global};

/// A copy of a name.
pub fn copy_name(alloc: Global, name: &Name) -> Result<Name, AllocError>
    ensures { IfOk result (λ copy. copy ≡ name.now) }
{
    let bytes = Vec::from_slice(alloc, name.as_bytes())?;
    Ok(Name::from_vec(bytes))
}

/// A copy of a list of types.
pub fn copy_types(alloc: Global, types: &[Simple]) -> Result<Seq<Simple>, AllocError>
    ensures { IfOk result (λ copy. copy ≡ types.now) }
{
    let copy = Vec::from_slice(alloc, types)?;
    Ok(Seq::from_vec(copy))
}

/// A copy of some classes.
pub fn copy_classes(alloc: Global, classes: &[Class]) -> Result<Seq<Class>, AllocError>
    ensures { IfOk result (λ copy. copy ≡ classes.now) }
{
    let copy = Vec::from_slice(alloc, classes)?;
    Ok(Seq::from_vec(copy))
}

// A copy of a family.
fn copy_family(alloc: Global, family: &Family) -> Result<Family, AllocError>
    ensures { IfOk result (λ copy. copy ≡ family.now) }
{
    let name = copy_name(alloc, &family.name)?;
    let over = copy_types(alloc, family.over.as_slice())?;
    Ok(Family {
        name,
        over,
        value: family.value,
        is_abstract: family.is_abstract,
        at: family.at,
    })
}

/// A copy of each family, in their order.
pub fn copy_families(alloc: Global, families: &[Family]) -> Result<Seq<Family>, AllocError>
    ensures { IfOk result (λ copies. copies ≡ families.now) }
{
    let mut copies = Seq::new(alloc);
    for family in families {
        copies.push(copy_family(alloc, family)?)?;
    }
    Ok(copies)
}

// A copy of a guard.
fn copy_guard(alloc: Global, guard: &Guard) -> Result<Guard, AllocError>
    ensures { IfOk result (λ copy. copy ≡ guard.now) }
{
    let expr = copy_expression(&guard.expr, alloc)?;
    Ok(Guard {
        expr,
        var: guard.var,
        over: guard.over,
        at: guard.at,
    })
}

/// A copy of each guard, in their order.
pub fn copy_guards(alloc: Global, guards: &[Guard]) -> Result<Seq<Guard>, AllocError>
    ensures { IfOk result (λ copies. copies ≡ guards.now) }
{
    let mut copies = Seq::new(alloc);
    for guard in guards {
        copies.push(copy_guard(alloc, guard)?)?;
    }
    Ok(copies)
}

/// A copy of a part of a definition.
#[cycle(parts)]
pub fn copy_part(alloc: Global, part: &DefBody) -> Result<DefBody, AllocError>
    ensures { IfOk result (λ copy. copy ≡ part.now) }
{
    match part {
        DefBody::Nothing => Ok(DefBody::Nothing),
        DefBody::Assign {
            left,
            value,
            place,
            at,
        } => {
            let left = copy_expressions(left.as_slice(), alloc)?;
            let value = copy_expression(value, alloc)?;
            Ok(DefBody::Assign {
                left,
                value,
                place: *place,
                at: *at,
            })
        }
        DefBody::If { cond, yes, no } => {
            let cond = copy_expression(cond, alloc)?;
            let yes = copy_boxed(alloc, yes)?;
            let no = copy_boxed(alloc, no)?;
            Ok(DefBody::If { cond, yes, no })
        }
        DefBody::First { parts } => {
            let parts = copy_parts(alloc, parts.as_slice())?;
            Ok(DefBody::First { parts })
        }
        DefBody::Forall { var, over, body } => {
            let body = copy_boxed(alloc, body)?;
            Ok(DefBody::Forall {
                var: *var,
                over: *over,
                body,
            })
        }
    }
}

// A copy in a place of its own.
#[cycle(parts)]
fn copy_boxed(alloc: Global, part: &Boxed<DefBody>) -> Result<Boxed<DefBody>, AllocError>
    ensures { IfOk result (λ copy. copy ≡ part.now) }
{
    let copy = copy_part(alloc, part.get())?;
    Boxed::new(alloc, copy)
}

#[cycle(parts)]
fn copy_parts(alloc: Global, parts: &[DefBody]) -> Result<Seq<DefBody>, AllocError>
    ensures { IfOk result (λ copies. copies ≡ parts.now) }
{
    let mut copies = Seq::new(alloc);
    for part in parts {
        copies.push(copy_part(alloc, part)?)?;
    }
    Ok(copies)
}

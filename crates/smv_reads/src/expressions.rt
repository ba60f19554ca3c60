// The elements that an expression reads.
ghost use Rattle.std.specs.Prelude.{◌≡◌, ◌++◌, OnOk};
ghost use Rattle.std.specs.List.{flat_map};
ghost use Rattle.smv_elements.specs.Elements.{put_all};
ghost use Rattle.smv_reads.specs.Views.{IsView};
ghost use Rattle.smv_reads.specs.Reading.{read_at, read_in, read_in_term, read_in_member, read_over, DoForAll, AreWalked};

use crate::bindings::{View, bound, first_spots, spots_named};
use crate::references::put_reference;
use smv_core::flat::{FlatExpr, FlatMember, FlatSigned, Simple};
use smv_elements::Found;
use smv_free_variables::reading::is_read;
use smv_free_variables::{Known, nothing_known};
use smv_spots::spots::Spot;
use std::alloc::{AllocError, Global};

/// Puts the elements that an expression reads, where the variables around it lie at these spots.
#[tactic(auto, using(crate::proofs::WalkLaws::none_walked))]
pub fn read_expression(
    alloc: Global,
    view: &View,
    found: &mut Found,
    bindings: &[Spot],
    x: &FlatExpr,
) -> Result<(), AllocError>
    requires { IsView view.now }
    ensures { OnOk result (found.new ≡ put_all found.old (read_in view.now bindings.now x.now)) }
{
    let mut walked = nothing_known(alloc);
    walk_expression(alloc, view, found, &mut walked, bindings, x)
}

// Whether an expression has a body under a variable of its own: a quantifier, or a comprehension with a condition.
fn has_body(x: &FlatExpr) -> bool {
    match x {
        FlatExpr::All { .. } => true,
        FlatExpr::Any { .. } => true,
        FlatExpr::Each { cond, .. } => cond.is_some(),
        _ => false,
    }
}

/// The same beside a table of the quantifiers, and the comprehensions with a condition, that were walked: what it has is not walked again.
#[cycle(expressions)]
pub(crate) fn walk_expression<'a>(
    alloc: Global,
    view: &View,
    found: &mut Found,
    walked: &mut Known<'a, ()>,
    bindings: &[Spot],
    x: &'a FlatExpr,
) -> Result<(), AllocError>
    requires view { IsView view.now }
    requires walked { AreWalked view.now found.old walked.old.entries.items }
    ensures found { OnOk result (found.new ≡ put_all found.old (read_in view.now bindings.now x.now)) }
    ensures walked { OnOk result (AreWalked view.now found.new walked.new.entries.items) }
{
    if !has_body(x) {
        return walk_parts(alloc, view, found, walked, bindings, x);
    }
    match walked.find(x, bindings) {
        Some(()) => Ok(()),
        None => {
            walk_parts(alloc, view, found, walked, bindings, x)?;
            walked.remember(alloc, x, bindings, ())
        }
    }
}

// What an expression reads by its parts.
#[cycle(expressions)]
#[tactic(auto, using(crate::proofs::Joins::joins, crate::proofs::ExpressionLaws::equations))]
fn walk_parts<'a>(
    alloc: Global,
    view: &View,
    found: &mut Found,
    walked: &mut Known<'a, ()>,
    bindings: &[Spot],
    x: &'a FlatExpr,
) -> Result<(), AllocError>
    requires view { IsView view.now }
    requires walked { AreWalked view.now found.old walked.old.entries.items }
    ensures found { OnOk result (found.new ≡ put_all found.old (read_in view.now bindings.now x.now)) }
    ensures walked { OnOk result (AreWalked view.now found.new walked.new.entries.items) }
{
    match x {
        FlatExpr::Number { .. } => Ok(()),
        FlatExpr::Read {
            family,
            indexes,
            ..
        } => walk_reference(
            alloc,
            view,
            found,
            walked,
            bindings,
            *family,
            indexes.as_slice(),
        ),
        FlatExpr::Var { .. } => Ok(()),
        FlatExpr::Loop { .. } => Ok(()),
        FlatExpr::Constant { .. } => Ok(()),
        FlatExpr::Not { of, .. } => walk_expression(alloc, view, found, walked, bindings, of.get()),
        FlatExpr::And { parts } => walk_each(
            alloc,
            view,
            found,
            walked,
            bindings,
            parts.as_slice(),
        ),
        FlatExpr::Or { parts } => walk_each(alloc, view, found, walked, bindings, parts.as_slice()),
        FlatExpr::Implies { parts } => {
            walk_each(alloc, view, found, walked, bindings, parts.as_slice())
        }
        FlatExpr::Iff { left, right } => {
            walk_expression(alloc, view, found, walked, bindings, left.get())?;
            walk_expression(alloc, view, found, walked, bindings, right.get())
        }
        FlatExpr::Compare { left, right, .. } => {
            walk_expression(alloc, view, found, walked, bindings, left.get())?;
            walk_expression(alloc, view, found, walked, bindings, right.get())
        }
        FlatExpr::Within { left, set } => {
            walk_expression(alloc, view, found, walked, bindings, left.get())?;
            walk_expression(alloc, view, found, walked, bindings, set.get())
        }
        FlatExpr::Sum { first, more } => {
            walk_expression(alloc, view, found, walked, bindings, first.get())?;
            walk_signed(alloc, view, found, walked, bindings, more.as_slice())
        }
        FlatExpr::Modulo { of, .. } => {
            walk_expression(alloc, view, found, walked, bindings, of.get())
        }
        FlatExpr::Choose { cond, yes, no } => {
            walk_expression(alloc, view, found, walked, bindings, cond.get())?;
            walk_expression(alloc, view, found, walked, bindings, yes.get())?;
            walk_expression(alloc, view, found, walked, bindings, no.get())
        }
        FlatExpr::All {
            body,
            var,
            over,
            ..
        } => walk_over(
            alloc,
            view,
            found,
            walked,
            bindings,
            *var,
            *over,
            body.get(),
        ),
        FlatExpr::Any {
            body,
            var,
            over,
            ..
        } => walk_over(
            alloc,
            view,
            found,
            walked,
            bindings,
            *var,
            *over,
            body.get(),
        ),
        FlatExpr::List { members, .. } => {
            walk_members(alloc, view, found, walked, bindings, members.as_slice())
        }
        FlatExpr::Each {
            var,
            over,
            cond,
            ..
        } => match cond {
            None => Ok(()),
            Some(cond) => walk_over(
                alloc,
                view,
                found,
                walked,
                bindings,
                *var,
                *over,
                cond.get(),
            ),
        },
    }
}

// A reference, and then its indexes.
#[cycle(expressions)]
#[tactic(auto, using(crate::proofs::Joins::joins, crate::proofs::WalkLaws::put_more))]
fn walk_reference<'a>(
    alloc: Global,
    view: &View,
    found: &mut Found,
    walked: &mut Known<'a, ()>,
    bindings: &[Spot],
    family: u16,
    indexes: &'a [FlatExpr],
) -> Result<(), AllocError>
    requires view { IsView view.now }
    requires walked { AreWalked view.now found.old walked.old.entries.items }
    ensures found { OnOk result (found.new ≡ put_all found.old (read_at view.now bindings.now family indexes.now ++ flat_map (read_in view.now bindings.now) indexes.now)) }
    ensures walked { OnOk result (AreWalked view.now found.new walked.new.entries.items) }
{
    put_reference(alloc, view, found, bindings, family, indexes)?;
    walk_each(alloc, view, found, walked, bindings, indexes)
}

/// So some expressions, one after the other.
#[cycle(expressions)]
#[tactic(auto, using(crate::proofs::Joins::joins))]
pub(crate) fn walk_each<'a>(
    alloc: Global,
    view: &View,
    found: &mut Found,
    walked: &mut Known<'a, ()>,
    bindings: &[Spot],
    parts: &'a [FlatExpr],
) -> Result<(), AllocError>
    requires view { IsView view.now }
    requires walked { AreWalked view.now found.old walked.old.entries.items }
    ensures found { OnOk result (found.new ≡ put_all found.old (flat_map (read_in view.now bindings.now) parts.now)) }
    ensures walked { OnOk result (AreWalked view.now found.new walked.new.entries.items) }
{
    for x in parts {
        walk_expression(alloc, view, found, walked, bindings, x)?;
    }
    Ok(())
}

// What a sum adds and takes away.
#[cycle(expressions)]
#[tactic(auto, using(crate::proofs::Joins::joins))]
fn walk_signed<'a>(
    alloc: Global,
    view: &View,
    found: &mut Found,
    walked: &mut Known<'a, ()>,
    bindings: &[Spot],
    more: &'a [FlatSigned],
) -> Result<(), AllocError>
    requires view { IsView view.now }
    requires walked { AreWalked view.now found.old walked.old.entries.items }
    ensures found { OnOk result (found.new ≡ put_all found.old (flat_map (read_in_term view.now bindings.now) more.now)) }
    ensures walked { OnOk result (AreWalked view.now found.new walked.new.entries.items) }
{
    for x in more {
        walk_expression(alloc, view, found, walked, bindings, &x.of)?;
    }
    Ok(())
}

// The members of a listed set.
#[cycle(expressions)]
#[tactic(auto, using(crate::proofs::Joins::joins))]
fn walk_members<'a>(
    alloc: Global,
    view: &View,
    found: &mut Found,
    walked: &mut Known<'a, ()>,
    bindings: &[Spot],
    members: &'a [FlatMember],
) -> Result<(), AllocError>
    requires view { IsView view.now }
    requires walked { AreWalked view.now found.old walked.old.entries.items }
    ensures found { OnOk result (found.new ≡ put_all found.old (flat_map (read_in_member view.now bindings.now) members.now)) }
    ensures walked { OnOk result (AreWalked view.now found.new walked.new.entries.items) }
{
    for x in members {
        walk_member(alloc, view, found, walked, bindings, x)?;
    }
    Ok(())
}

#[cycle(expressions)]
#[tactic(auto, using(crate::proofs::Joins::joins))]
fn walk_member<'a>(
    alloc: Global,
    view: &View,
    found: &mut Found,
    walked: &mut Known<'a, ()>,
    bindings: &[Spot],
    x: &'a FlatMember,
) -> Result<(), AllocError>
    requires view { IsView view.now }
    requires walked { AreWalked view.now found.old walked.old.entries.items }
    ensures found { OnOk result (found.new ≡ put_all found.old (read_in_member view.now bindings.now x.now)) }
    ensures walked { OnOk result (AreWalked view.now found.new walked.new.entries.items) }
{
    match x {
        FlatMember::One { of } => walk_expression(alloc, view, found, walked, bindings, of),
        FlatMember::Span { .. } => Ok(()),
    }
}

// The spots of a variable at which its body is walked: all of them, or one where the body does not read the variable.
fn turns<'a>(spots: &'a [Spot], bindings: &[Spot], var: u16, body: &FlatExpr) -> &'a [Spot]
    ensures { DoForAll bindings.now var body.now result.now spots.now }
{
    let place = first_spots(bindings, var as usize).len();
    if is_read(body, place) {
        spots
    } else {
        first_spots(spots, 1)
    }
}

// The body of a quantifier or the condition of a comprehension, at the places of its variable.
#[cycle(expressions)]
#[tactic(auto, using(crate::proofs::Joins::joins, crate::proofs::ExpressionLaws::over))]
fn walk_over<'a>(
    alloc: Global,
    view: &View,
    found: &mut Found,
    walked: &mut Known<'a, ()>,
    bindings: &[Spot],
    var: u16,
    over: Simple,
    body: &'a FlatExpr,
) -> Result<(), AllocError>
    requires view { IsView view.now }
    requires walked { AreWalked view.now found.old walked.old.entries.items }
    ensures found { OnOk result (found.new ≡ put_all found.old (read_over view.now bindings.now var over body.now)) }
    ensures walked { OnOk result (AreWalked view.now found.new walked.new.entries.items) }
{
    let spots = spots_named(alloc, view, over)?;
    let taken = turns(spots.as_slice(), bindings, var, body);
    for p in taken {
        let inner = bound(alloc, bindings, var, *p)?;
        let inside = inner.as_slice();
        walk_expression(alloc, view, found, walked, inside, body)?;
    }
    Ok(())
}

// The elements that a definition reads for an element of its family.
ghost use Rattle.std.specs.Prelude.{◌≡◌, OnOk, if◌then◌else◌, []};
ghost use Rattle.std.specs.List.{flat_map};
ghost use Rattle.smv_elements.specs.Elements.{put_all};
ghost use Rattle.smv_reads.specs.Views.{IsView};
ghost use Rattle.smv_reads.specs.Reading.{read_by, read_by_assignment, read_by_over, read_of, AreWalked};

use crate::bindings::{View, bound, spots_over};
use crate::counts::{either_counts, is_own, may_count};
use crate::expressions::{walk_each, walk_expression};
use smv_core::flat::{Def, DefBody, FlatExpr, Simple};
use smv_elements::Found;
use smv_free_variables::{Known, nothing_known};
use smv_spots::spots::Spot;
use std::alloc::{AllocError, Global};

/// Puts the elements that a definition of a family reads for the element with these indexes, rests too.
#[tactic(auto, using(crate::proofs::Joins::joins, crate::proofs::PartLaws::of_parts, crate::proofs::WalkLaws::none_walked))]
pub fn read_definition(
    alloc: Global,
    view: &View,
    found: &mut Found,
    own: &[Spot],
    def: &Def,
) -> Result<(), AllocError>
    requires { IsView view.now }
    ensures { OnOk result (found.new ≡ put_all found.old (read_of view.now own.now def.now)) }
{
    let mut walked = nothing_known(alloc);
    read_part(alloc, view, found, &mut walked, own, &[], &def.init)?;
    read_part(alloc, view, found, &mut walked, own, &[], &def.next)?;
    read_part(alloc, view, found, &mut walked, own, &[], &def.comb)
}

// A part of it, inside these variables, beside a table of what was walked.
#[cycle(parts)]
#[tactic(auto, using(crate::proofs::Joins::joins, crate::proofs::PartLaws::equations))]
fn read_part<'a>(
    alloc: Global,
    view: &View,
    found: &mut Found,
    walked: &mut Known<'a, ()>,
    own: &[Spot],
    bindings: &[Spot],
    part: &'a DefBody,
) -> Result<(), AllocError>
    requires view { IsView view.now }
    requires walked { AreWalked view.now found.old walked.old.entries.items }
    ensures found { OnOk result (found.new ≡ put_all found.old (read_by view.now own.now bindings.now part.now)) }
    ensures walked { OnOk result (AreWalked view.now found.new walked.new.entries.items) }
{
    match part {
        DefBody::Nothing => Ok(()),
        DefBody::Assign { left, value, .. } => {
            read_assignment(
                alloc,
                view,
                found,
                walked,
                own,
                bindings,
                left.as_slice(),
                value,
            )
        }
        DefBody::If { cond, yes, no } => {
            if either_counts(alloc, view, own, bindings, yes.get(), no.get())? {
                walk_expression(alloc, view, found, walked, bindings, cond)?;
                read_part(alloc, view, found, walked, own, bindings, yes.get())?;
                read_part(alloc, view, found, walked, own, bindings, no.get())
            } else {
                Ok(())
            }
        }
        DefBody::First { parts } => {
            read_parts(alloc, view, found, walked, own, bindings, parts.as_slice())
        }
        DefBody::Forall { var, over, body } => {
            read_turns(
                alloc,
                view,
                found,
                walked,
                own,
                bindings,
                *var,
                *over,
                body.get(),
            )
        }
    }
}

// An assignment, where it counts.
#[tactic(auto, using(crate::proofs::Joins::joins))]
fn read_assignment<'a>(
    alloc: Global,
    view: &View,
    found: &mut Found,
    walked: &mut Known<'a, ()>,
    own: &[Spot],
    bindings: &[Spot],
    left: &'a [FlatExpr],
    value: &'a FlatExpr,
) -> Result<(), AllocError>
    requires view { IsView view.now }
    requires walked { AreWalked view.now found.old walked.old.entries.items }
    ensures found { OnOk result (found.new ≡ put_all found.old (read_by_assignment view.now own.now bindings.now left.now value.now)) }
    ensures walked { OnOk result (AreWalked view.now found.new walked.new.entries.items) }
{
    if is_own(view, own, bindings, left) {
        walk_each(alloc, view, found, walked, bindings, left)?;
        walk_expression(alloc, view, found, walked, bindings, value)
    } else {
        Ok(())
    }
}

#[cycle(parts)]
#[tactic(auto, using(crate::proofs::Joins::joins))]
fn read_parts<'a>(
    alloc: Global,
    view: &View,
    found: &mut Found,
    walked: &mut Known<'a, ()>,
    own: &[Spot],
    bindings: &[Spot],
    parts: &'a [DefBody],
) -> Result<(), AllocError>
    requires view { IsView view.now }
    requires walked { AreWalked view.now found.old walked.old.entries.items }
    ensures found { OnOk result (found.new ≡ put_all found.old (flat_map (read_by view.now own.now bindings.now) parts.now)) }
    ensures walked { OnOk result (AreWalked view.now found.new walked.new.entries.items) }
{
    for part in parts {
        read_part(alloc, view, found, walked, own, bindings, part)?;
    }
    Ok(())
}

// The body of a `forall`, at each place of its variable at which something may count.
#[cycle(parts)]
#[tactic(auto, using(crate::proofs::Joins::joins, crate::proofs::PartLaws::over))]
fn read_turns<'a>(
    alloc: Global,
    view: &View,
    found: &mut Found,
    walked: &mut Known<'a, ()>,
    own: &[Spot],
    bindings: &[Spot],
    var: u16,
    over: Simple,
    body: &'a DefBody,
) -> Result<(), AllocError>
    requires view { IsView view.now }
    requires walked { AreWalked view.now found.old walked.old.entries.items }
    ensures found { OnOk result (found.new ≡ put_all found.old (read_by_over view.now own.now bindings.now var over body.now)) }
    ensures walked { OnOk result (AreWalked view.now found.new walked.new.entries.items) }
{
    let spots = spots_over(alloc, view, over)?;
    for p in spots.as_slice() {
        let inner = bound(alloc, bindings, var, *p)?;
        let inside = inner.as_slice();
        read_turn(alloc, view, found, walked, own, inside, body)?;
    }
    Ok(())
}

#[cycle(parts)]
#[tactic(auto, using(crate::proofs::Joins::joins, crate::proofs::PartLaws::none_may))]
fn read_turn<'a>(
    alloc: Global,
    view: &View,
    found: &mut Found,
    walked: &mut Known<'a, ()>,
    own: &[Spot],
    bindings: &[Spot],
    body: &'a DefBody,
) -> Result<(), AllocError>
    requires view { IsView view.now }
    requires walked { AreWalked view.now found.old walked.old.entries.items }
    ensures found { OnOk result (found.new ≡ put_all found.old (read_by view.now own.now bindings.now body.now)) }
    ensures walked { OnOk result (AreWalked view.now found.new walked.new.entries.items) }
{
    if may_count(view, own, bindings, body) {
        read_part(alloc, view, found, walked, own, bindings, body)
    } else {
        Ok(())
    }
}

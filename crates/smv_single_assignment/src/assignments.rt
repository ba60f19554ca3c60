// The assignments of a flattened text, in flat order.
ghost use Rattle.std.specs.Prelude.{◌≡◌, [], ◌∷◌, ◌++◌, map, flat_map, IfOk, OnOk};
ghost use Rattle.law_designs.specs.Standing.{standing};
ghost use Rattle.smv_single_assignment.specs.Held.{standing_of, assigned_of};

use smv_core::flat::{FlatExpr, FlatItem, FlatStmt};
use smv_core::tree::Kind;
use std::alloc::{AllocError, Global};

/// An assignment, with the `forall` variables around it by their numbers, the innermost first.
#[derive(Drop)]
pub struct Assignment<'a> {
    pub layer: Option<u16>,
    pub kind: Kind,
    pub family: u16,
    pub left: &'a [FlatExpr],
    pub around: Vec<u16>,
    pub at: u32,
}

// A copy of these variables.
fn copied(alloc: Global, around: &[u16]) -> Result<Vec<u16>, AllocError>
    ensures { IfOk result (λ copy. copy.items ≡ around.now) }
{
    let mut copy = Vec::new(alloc);
    copy.extend_from_slice(around)?;
    Ok(copy)
}

/// These variables, inside one more.
pub fn inside(alloc: Global, var: u16, around: &[u16]) -> Result<Vec<u16>, AllocError>
    ensures { IfOk result (λ inner. inner.items ≡ var ∷ around.now) }
{
    let mut inner = Vec::new(alloc);
    inner.push(var)?;
    inner.extend_from_slice(around)?;
    Ok(inner)
}

/// Puts the assignments of a statement of a layer, inside these variables, at the end.
#[cycle(statements)]
#[tactic(auto, using(smv_mentions::proofs::Notes::noting, crate::proofs::StandingLaws::equations))]
pub fn statement<'a>(
    x: &'a FlatStmt,
    layer: Option<u16>,
    around: &[u16],
    alloc: Global,
    out: &mut Vec<Assignment<'a>>,
) -> Result<(), AllocError>
    ensures { OnOk result (map standing_of out.new.items ≡ map standing_of out.old.items ++ standing layer around.now x.now) }
{
    match x {
        FlatStmt::Assign {
            kind,
            family,
            left,
            at,
            ..
        } => {
            let around = copied(alloc, around)?;
            out.push(Assignment {
                layer,
                kind: *kind,
                family: *family,
                left: left.as_slice(),
                around,
                at: *at,
            })?;
            Ok(())
        }
        FlatStmt::If { yes, no, .. } => {
            statement(yes.get(), layer, around, alloc, out)?;
            statement(no.get(), layer, around, alloc, out)
        }
        FlatStmt::Block { parts } => block(parts.as_slice(), layer, around, alloc, out),
        FlatStmt::Default { first, second } => {
            statement(first.get(), layer, around, alloc, out)?;
            statement(second.get(), layer, around, alloc, out)
        }
        FlatStmt::Forall { var, body, .. } => {
            let inner = inside(alloc, *var, around)?;
            statement(body.get(), layer, inner.as_slice(), alloc, out)
        }
    }
}

// Those of all of these statements.
#[cycle(statements)]
#[tactic(auto, using(smv_mentions::proofs::Notes::noting))]
fn block<'a>(
    parts: &'a [FlatStmt],
    layer: Option<u16>,
    around: &[u16],
    alloc: Global,
    out: &mut Vec<Assignment<'a>>,
) -> Result<(), AllocError>
    ensures { OnOk result (map standing_of out.new.items ≡ map standing_of out.old.items ++ flat_map (standing layer around.now) parts.now) }
{
    for x in parts {
        statement(x, layer, around, alloc, out)?;
    }
    Ok(())
}

// Those of an item.
#[tactic(auto, using(smv_mentions::proofs::Notes::noting))]
fn item<'a>(x: &'a FlatItem, alloc: Global, out: &mut Vec<Assignment<'a>>) -> Result<(), AllocError>
    ensures { OnOk result (map standing_of out.new.items ≡ map standing_of out.old.items ++ assigned_of x.now) }
{
    match x {
        FlatItem::Act { layer, act } => statement(act, *layer, &[], alloc, out),
        FlatItem::Claim { .. } => Ok(()),
        FlatItem::Split { .. } => Ok(()),
        FlatItem::Using { .. } => Ok(()),
    }
}

/// The assignments of these items.
#[tactic(auto, using(smv_mentions::proofs::Notes::noting))]
pub fn assignments<'a>(
    items: &'a [FlatItem],
    alloc: Global,
) -> Result<Vec<Assignment<'a>>, AllocError>
    ensures { IfOk result (λ all. map standing_of all.items ≡ flat_map assigned_of items.now) }
{
    let mut all = Vec::new(alloc);
    for x in items {
        item(x, alloc, &mut all)?;
    }
    Ok(all)
}

// The first assignment that conflicts with a later one at a place.
ghost use Rattle.std.specs.Prelude.{◌≡◌, [], ◌++◌, map, IfOk, OnOk};
ghost use Rattle.smv_first_fault.specs.Firsts.{least};
ghost use Rattle.law_designs.specs.Flattening as law;
ghost use Rattle.law_designs.specs.Standing.{standing};
ghost use Rattle.law_designs.specs.SingleFaults.{cross, meet};
ghost use Rattle.smv_single_assignment.specs.Held.{assigned_of, standing_of};
ghost use Rattle.smv_look_assignments.specs.Assignments as spec;
ghost use Rattle.smv_look_assignments.specs.Walks.{parts_met};

use crate::clashes::first_clash;
use smv_core::flat::{FlatItem, FlatStmt, FlatText};
use smv_core::tree::Text;
use smv_first_fault::places::first_of;
use smv_flatten::flatten::flatten;
use smv_mentions::pieces::pieces;
use smv_single_assignment::assignments::{Assignment, assignments, inside, statement};
use smv_single_assignment::clashes::Clash;
use std::alloc::{AllocError, Global};

// The assignments of a statement of a layer, inside these variables.
fn assigned<'a>(
    alloc: Global,
    x: &'a FlatStmt,
    layer: Option<u16>,
    around: &[u16],
) -> Result<Vec<Assignment<'a>>, AllocError>
    ensures { IfOk result (λ all. map standing_of all.items ≡ standing layer around.now x.now) }
{
    let mut out = Vec::new(alloc);
    statement(x, layer, around, alloc, &mut out)?;
    Ok(out)
}

// Between two branches, or the two parts of a `default`, inside these variables.
fn crossed(
    first: &FlatStmt,
    second: &FlatStmt,
    layer: Option<u16>,
    around: &[u16],
    at: u32,
    alloc: Global,
) -> Result<Option<u32>, AllocError>
    ensures { IfOk result (λ found. found ≡ least (spec.clashing at (cross around.now) (standing layer around.now first.now) (standing layer around.now second.now))) }
{
    let earlier = assigned(alloc, first, layer, around)?;
    let later = assigned(alloc, second, layer, around)?;
    Ok(first_clash(
        Clash::Cross { around },
        earlier.as_slice(),
        later.as_slice(),
        at,
    ))
}

// Between these assignments and those of a statement behind them.
fn meeting(
    before: &[Assignment],
    x: &FlatStmt,
    layer: Option<u16>,
    around: &[u16],
    at: u32,
    alloc: Global,
) -> Result<Option<u32>, AllocError>
    ensures { IfOk result (λ found. found ≡ least (spec.clashing at meet (map standing_of before.now) (standing layer around.now x.now))) }
{
    let later = assigned(alloc, x, layer, around)?;
    Ok(first_clash(Clash::Meet, before, later.as_slice(), at))
}

// In a statement of a layer, inside these variables.
#[cycle(meetings)]
fn in_statement(
    x: &FlatStmt,
    layer: Option<u16>,
    around: &[u16],
    at: u32,
    alloc: Global,
) -> Result<Option<u32>, AllocError>
    ensures { IfOk result (λ found. found ≡ least (spec.met at layer around.now x.now)) }
{
    match x {
        FlatStmt::Assign { .. } => Ok(None),
        FlatStmt::If { yes, no, .. } => {
            let first = in_statement(yes.get(), layer, around, at, alloc)?;
            let second = in_statement(no.get(), layer, around, at, alloc)?;
            let between = crossed(yes.get(), no.get(), layer, around, at, alloc)?;
            Ok(first_of(first, first_of(second, between)))
        }
        FlatStmt::Block { parts } => block(parts.as_slice(), layer, around, at, alloc),
        FlatStmt::Default {
            first: one,
            second: other,
        } => {
            let first = in_statement(one.get(), layer, around, at, alloc)?;
            let second = in_statement(other.get(), layer, around, at, alloc)?;
            let between = crossed(one.get(), other.get(), layer, around, at, alloc)?;
            Ok(first_of(first, first_of(second, between)))
        }
        FlatStmt::Forall { var, body, .. } => {
            let inner = inside(alloc, *var, around)?;
            in_statement(body.get(), layer, inner.as_slice(), at, alloc)
        }
    }
}

// In a block.
#[cycle(meetings)]
fn block(
    parts: &[FlatStmt],
    layer: Option<u16>,
    around: &[u16],
    at: u32,
    alloc: Global,
) -> Result<Option<u32>, AllocError>
    ensures { IfOk result (λ found. found ≡ least (parts_met at layer around.now [] parts.now)) }
{
    let mut found = None;
    let mut before = Vec::new(alloc);
    for part in parts {
        let within = in_statement(part, layer, around, at, alloc)?;
        let met = meeting(before.as_slice(), part, layer, around, at, alloc)?;
        found = first_of(found, first_of(within, met));
        statement(part, layer, around, alloc, &mut before)?;
    }
    Ok(found)
}

// In a statement that is an item of its own, and between it and these assignments.
#[tactic(auto, using(smv_first_fault::proofs::LeastLaws::leasts))]
fn act(
    before: &[Assignment],
    x: &FlatStmt,
    layer: Option<u16>,
    at: u32,
    alloc: Global,
) -> Result<Option<u32>, AllocError>
    ensures { IfOk result (λ found. found ≡ least (spec.met at layer [] x.now ++ spec.clashing at meet (map standing_of before.now) (standing layer [] x.now))) }
{
    let within = in_statement(x, layer, &[], at, alloc)?;
    let met = meeting(before, x, layer, &[], at, alloc)?;
    Ok(first_of(within, met))
}

// In an item behind these assignments.
fn item(
    before: &[Assignment],
    x: &FlatItem,
    at: u32,
    alloc: Global,
) -> Result<Option<u32>, AllocError>
    ensures { IfOk result (λ found. found ≡ least (spec.item_met at (map standing_of before.now) x.now)) }
{
    match x {
        FlatItem::Act { layer, act: said } => act(before, said, *layer, at, alloc),
        FlatItem::Claim { .. } => Ok(None),
        FlatItem::Split { .. } => Ok(None),
        FlatItem::Using { .. } => Ok(None),
    }
}

// Puts the assignments of an item at the end.
fn push_item<'a>(
    x: &'a FlatItem,
    alloc: Global,
    out: &mut Vec<Assignment<'a>>,
) -> Result<(), AllocError>
    ensures { OnOk result (map standing_of out.new.items ≡ map standing_of out.old.items ++ assigned_of x.now) }
{
    match x {
        FlatItem::Act { layer, act: said } => statement(said, *layer, &[], alloc, out),
        FlatItem::Claim { .. } => Ok(()),
        FlatItem::Split { .. } => Ok(()),
        FlatItem::Using { .. } => Ok(()),
    }
}

// In these items.
fn items(items: &[FlatItem], at: u32, alloc: Global) -> Result<Option<u32>, AllocError>
    ensures { IfOk result (λ found. found ≡ least (spec.met_by at [] items.now)) }
{
    let mut found = None;
    let mut before = Vec::new(alloc);
    for x in items {
        let met = item(before.as_slice(), x, at, alloc)?;
        found = first_of(found, met);
        push_item(x, alloc, &mut before)?;
    }
    Ok(found)
}

/// The first assignment of a flattened text that conflicts with a later one at a place.
pub(crate) fn first_conflict(
    alloc: Global,
    flat_text: &FlatText,
    at: u32,
) -> Result<Option<u32>, AllocError>
    ensures { IfOk result (λ found. found ≡ least (spec.conflicting_with at flat_text.now)) }
{
    items(flat_text.items.as_slice(), at, alloc)
}

/// The first assignment of a flattened text beside which there is one of the other sort at a place.
#[tactic(auto, using(crate::proofs::MetLaws::all_mixed))]
pub(crate) fn first_mixed(
    alloc: Global,
    flat_text: &FlatText,
    at: u32,
) -> Result<Option<u32>, AllocError>
    ensures { IfOk result (λ found. found ≡ least (spec.mixed_with at flat_text.now)) }
{
    let all = assignments(flat_text.items.as_slice(), alloc)?;
    Ok(first_clash(Clash::Mixed, all.as_slice(), all.as_slice(), at))
}

// The flattened text of a text.
fn flattened(alloc: Global, text: &Text) -> Result<FlatText, AllocError>
    ensures { IfOk result (λ flat_text. flat_text ≡ law.flatten text.now) }
{
    let pieces = pieces(alloc, text)?;
    flatten(alloc, text, pieces.as_slice())
}

/// Where the first assignment stands that an assignment at a place of a text conflicts with.
pub fn conflicts_first(alloc: Global, text: &Text, at: u32) -> Result<Option<u32>, AllocError>
    ensures { IfOk result (λ place. place ≡ spec.conflicts_first text.now at) }
{
    let flat_text = flattened(alloc, text)?;
    first_conflict(alloc, &flat_text, at)
}

/// Where the first assignment stands beside which there is one of the other sort at a place of a text.
pub fn mixed_first(alloc: Global, text: &Text, at: u32) -> Result<Option<u32>, AllocError>
    ensures { IfOk result (λ place. place ≡ spec.mixed_first text.now at) }
{
    let flat_text = flattened(alloc, text)?;
    first_mixed(alloc, &flat_text, at)
}

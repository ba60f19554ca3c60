// Conflicts of assignments.
ghost use Rattle.std.specs.Prelude.{◌≡◌, ◌≤◌, ℕ, [], length, IfOk};
ghost use Rattle.std.specs.List.{flat_map};
ghost use Rattle.smv_mentions.specs.Scopes.{first_of_places};
ghost use Rattle.smv_first_fault.specs.Firsts.{least};
ghost use Rattle.law_designs.specs.Standing.{standing};
ghost use Rattle.law_designs.specs.SingleFaults as spec;
ghost use Rattle.smv_single_assignment.specs.Held.{among, assigned_of, conflicts_of};
ghost use Rattle.smv_single_assignment.specs.Links.{IsTable, StandsAt, between, held};
ghost use Rattle.smv_single_assignment.specs.Shared.{AreInside};
ghost use Rattle.smv_single_assignment.specs.Walks.{IsWalked};

use crate::assignments::inside;
use crate::earlier::{first_cross, first_meeting};
use crate::links::Table;
use smv_core::flat::{FlatItem, FlatStmt};
use smv_first_fault::places::first_of;
use std::alloc::{AllocError, Global};

// The first place of a conflict in statements, and the place behind their assignments.
#[derive(Clone, Copy)]
struct Walked {
    found: Option<u32>,
    end: usize,
}

// The first conflict in a statement, where its assignments are those of the table from a place on.
#[cycle(conflicts)]
fn statement(
    x: &FlatStmt,
    layer: Option<u16>,
    around: &[u16],
    start: usize,
    table: &Table,
    alloc: Global,
) -> Result<Walked, AllocError>
    requires { (count : ℕ) × IsTable table.now count }
    ensures { StandsAt (held table.now) start (standing layer around.now x.now) → IfOk result (IsWalked start (spec.conflicts layer around.now x.now) (standing layer around.now x.now)) }
{
    match x {
        FlatStmt::Assign { .. } => Ok(Walked {
            found: None,
            end: start.saturating_add(1),
        }),
        FlatStmt::If { yes, no, .. } => {
            let first = statement(yes.get(), layer, around, start, table, alloc)?;
            let second = statement(no.get(), layer, around, first.end, table, alloc)?;
            Ok(branches(around, start, first, second, table))
        }
        FlatStmt::Block { parts } => { block(parts.as_slice(), layer, around, start, table, alloc) }
        FlatStmt::Default { first, second } => {
            let first = statement(first.get(), layer, around, start, table, alloc)?;
            let second = statement(second.get(), layer, around, first.end, table, alloc)?;
            Ok(branches(around, start, first, second, table))
        }
        FlatStmt::Forall { var, body, .. } => {
            let inner = inside(alloc, *var, around)?;
            statement(body.get(), layer, inner.as_slice(), start, table, alloc)
        }
    }
}

// The same for a block.
#[cycle(conflicts)]
fn block(
    parts: &[FlatStmt],
    layer: Option<u16>,
    around: &[u16],
    start: usize,
    table: &Table,
    alloc: Global,
) -> Result<Walked, AllocError>
    requires { (count : ℕ) × IsTable table.now count }
    ensures { StandsAt (held table.now) start (flat_map (standing layer around.now) parts.now) → IfOk result (IsWalked start (among spec.meet (spec.conflicts layer around.now) (standing layer around.now) parts.now) (flat_map (standing layer around.now) parts.now)) }
{
    let mut found = None;
    let mut end = start;
    for part in parts {
        let walked = statement(part, layer, around, end, table, alloc)?;
        let met = first_meeting(table, start, end, walked.end);
        found = first_of(found, first_of(walked.found, met));
        end = walked.end;
    }
    Ok(Walked { found, end })
}

// Two branches from a place on, or the two parts of a `default`.
fn branches(around: &[u16], start: usize, first: Walked, second: Walked, table: &Table) -> Walked
    requires { (count : ℕ) × IsTable table.now count }
    ensures found { first.end ≤ second.end → second.end ≤ length (held table.now) → AreInside around.now (between start first.end (held table.now)) → AreInside around.now (between first.end second.end (held table.now)) → result.found ≡ first_of_places first.found (first_of_places second.found (least (spec.later_places (spec.cross around.now) (between start first.end (held table.now)) (between first.end second.end (held table.now))))) }
    ensures end { result.end ≡ second.end }
{
    let crossed = first_cross(table, around, start, first.end, second.end);
    Walked {
        found: first_of(first.found, first_of(second.found, crossed)),
        end: second.end,
    }
}

// The same for an item.
fn item(x: &FlatItem, start: usize, table: &Table, alloc: Global) -> Result<Walked, AllocError>
    requires { (count : ℕ) × IsTable table.now count }
    ensures { StandsAt (held table.now) start (assigned_of x.now) → IfOk result (IsWalked start (conflicts_of x.now) (assigned_of x.now)) }
{
    match x {
        FlatItem::Act { layer, act } => statement(act, *layer, &[], start, table, alloc),
        FlatItem::Claim { .. } => Ok(nothing(start)),
        FlatItem::Split { .. } => Ok(nothing(start)),
        FlatItem::Using { .. } => Ok(nothing(start)),
    }
}

// No conflict, and no assignments.
fn nothing(start: usize) -> Walked
    ensures { IsWalked start [] [] result }
{
    Walked {
        found: None,
        end: start,
    }
}

/// The first place of a later one of two conflicting assignments of these items.
pub(crate) fn first_conflict(
    items: &[FlatItem],
    table: &Table,
    alloc: Global,
) -> Result<Option<u32>, AllocError>
    requires table { (count : ℕ) × IsTable table.now count }
    requires items { held table.now ≡ flat_map assigned_of items.now }
    ensures { IfOk result (λ at. at ≡ least (among spec.meet conflicts_of assigned_of items.now)) }
{
    let mut found = None;
    let mut end = 0;
    for x in items {
        let walked = item(x, end, table, alloc)?;
        let met = first_meeting(table, 0, end, walked.end);
        found = first_of(found, first_of(walked.found, met));
        end = walked.end;
    }
    Ok(found)
}

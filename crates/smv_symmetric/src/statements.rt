// The first fault of set types in statements and items.
ghost use Rattle.std.specs.Prelude.{◌≡◌, [], map, IfOk};
ghost use Rattle.law_designs.specs.FlatKinds.{kind_of, bound_by};
ghost use Rattle.smv_symmetric.specs.Plain as plain;

use crate::expressions::{fault_in, faults_in, inside};
use crate::operands::{operand_of, wanted_at, wanted_of};
use smv_core::fault::Fault;
use smv_core::flat::{
    Claim, FlatExpr, FlatItem, FlatPair, FlatSplit, FlatStmt, FlatText, Param, Simple,
};
use smv_first_fault::faults::earlier;
use std::alloc::{AllocError, Global};

// The first fault of an assignment of a family: in its indexes and its value, and of what it wants there.
fn assigned_fault(
    alloc: Global,
    flat_text: &FlatText,
    vars: &[Simple],
    family: u16,
    left: &[FlatExpr],
    value: &FlatExpr,
) -> Result<Option<Fault>, AllocError>
    ensures { IfOk result (λ fault. fault ≡ plain.assigned_fault flat_text.now (map kind_of vars.now) family left.now value.now) }
{
    let parts = faults_in(alloc, flat_text, vars, left)?;
    let indexes = earlier(parts, wanted_at(flat_text, family, vars, left));
    let read = fault_in(alloc, flat_text, vars, value)?;
    let all = earlier(indexes, read);
    Ok(earlier(
        all,
        wanted_of(flat_text, family, operand_of(flat_text, vars, value)),
    ))
}

// The first fault in a statement inside these variables.
#[cycle(statements)]
#[tactic(auto, using(crate::proofs::StatementEquations::equations))]
fn statement_fault(
    alloc: Global,
    flat_text: &FlatText,
    vars: &[Simple],
    act: &FlatStmt,
) -> Result<Option<Fault>, AllocError>
    ensures { IfOk result (λ fault. fault ≡ plain.statement_fault flat_text.now (map kind_of vars.now) act.now) }
{
    match act {
        FlatStmt::Assign {
            family,
            left,
            value,
            ..
        } => assigned_fault(alloc, flat_text, vars, *family, left.as_slice(), value),
        FlatStmt::If { cond, yes, no } => {
            let first = fault_in(alloc, flat_text, vars, cond)?;
            let second = statement_fault(alloc, flat_text, vars, yes.get())?;
            let third = statement_fault(alloc, flat_text, vars, no.get())?;
            Ok(earlier(first, earlier(second, third)))
        }
        FlatStmt::Block { parts } => statement_faults(alloc, flat_text, vars, parts.as_slice()),
        FlatStmt::Default { first, second } => {
            let one = statement_fault(alloc, flat_text, vars, first.get())?;
            let other = statement_fault(alloc, flat_text, vars, second.get())?;
            Ok(earlier(one, other))
        }
        FlatStmt::Forall { over, body, .. } => {
            let inner = inside(alloc, vars, *over)?;
            statement_fault(alloc, flat_text, inner.as_slice(), body.get())
        }
    }
}

// The first fault in some statements.
#[cycle(statements)]
#[tactic(auto, using(crate::proofs::TurnLaws::in_turn))]
fn statement_faults(
    alloc: Global,
    flat_text: &FlatText,
    vars: &[Simple],
    parts: &[FlatStmt],
) -> Result<Option<Fault>, AllocError>
    ensures { IfOk result (λ fault. fault ≡ plain.first_among (map (plain.statement_fault flat_text.now (map kind_of vars.now)) parts.now)) }
{
    let mut found = None;
    for x in parts {
        let fault = statement_fault(alloc, flat_text, vars, x)?;
        found = earlier(found, fault);
    }
    Ok(found)
}

// The types of these parameters.
#[tactic(auto, using(smv_mentions::proofs::Notes::noting))]
fn types_of(alloc: Global, params: &[Param]) -> Result<Vec<Simple>, AllocError>
    ensures { IfOk result (λ types. map kind_of types.items ≡ map (λ p. kind_of p.over) params.now) }
{
    let mut types = Vec::new(alloc);
    for p in params {
        types.push(p.over)?;
    }
    Ok(types)
}

// The first fault of a claim's body.
fn claim_fault(
    alloc: Global,
    flat_text: &FlatText,
    claim: &Claim,
) -> Result<Option<Fault>, AllocError>
    ensures { IfOk result (λ fault. fault ≡ plain.fault_in flat_text.now (bound_by flat_text.now claim.now.params) claim.now.body) }
{
    let vars = types_of(alloc, claim.params.as_slice())?;
    let fault = fault_in(alloc, flat_text, vars.as_slice(), &claim.body)?;
    Ok(fault)
}

// The first fault in the expressions of some equations.
#[tactic(auto, using(crate::proofs::TurnLaws::in_turn))]
fn pair_faults(
    alloc: Global,
    flat_text: &FlatText,
    vars: &[Simple],
    pairs: &[FlatPair],
) -> Result<Option<Fault>, AllocError>
    ensures { IfOk result (λ fault. fault ≡ plain.first_among (map (λ pair. plain.fault_in flat_text.now (map kind_of vars.now) pair.left) pairs.now)) }
{
    let mut found = None;
    for pair in pairs {
        let fault = fault_in(alloc, flat_text, vars, &pair.left)?;
        found = earlier(found, fault);
    }
    Ok(found)
}

// The first fault of a split's equations.
fn split_fault(
    alloc: Global,
    flat_text: &FlatText,
    split: &FlatSplit,
) -> Result<Option<Fault>, AllocError>
    ensures { IfOk result (λ fault. fault ≡ plain.first_among (map (λ pair. plain.fault_in flat_text.now (bound_by flat_text.now split.now.bound) pair.left) split.now.pairs)) }
{
    let vars = types_of(alloc, split.bound.as_slice())?;
    let fault = pair_faults(alloc, flat_text, vars.as_slice(), split.pairs.as_slice())?;
    Ok(fault)
}

// The first fault of an item.
#[tactic(auto, using(crate::proofs::StatementEquations::items))]
fn item_fault(
    alloc: Global,
    flat_text: &FlatText,
    x: &FlatItem,
) -> Result<Option<Fault>, AllocError>
    ensures { IfOk result (λ fault. fault ≡ plain.item_fault flat_text.now x.now) }
{
    match x {
        FlatItem::Act { act, .. } => statement_fault(alloc, flat_text, &[], act),
        FlatItem::Claim { claim } => claim_fault(alloc, flat_text, claim),
        FlatItem::Split { split } => split_fault(alloc, flat_text, split),
        FlatItem::Using { .. } => Ok(None),
    }
}

/// The first fault of some items.
#[tactic(auto, using(crate::proofs::TurnLaws::in_turn))]
pub(crate) fn items_fault(
    alloc: Global,
    flat_text: &FlatText,
    items: &[FlatItem],
) -> Result<Option<Fault>, AllocError>
    ensures { IfOk result (λ fault. fault ≡ plain.first_among (map (plain.item_fault flat_text.now) items.now)) }
{
    let mut found = None;
    for x in items {
        let fault = item_fault(alloc, flat_text, x)?;
        found = earlier(found, fault);
    }
    Ok(found)
}

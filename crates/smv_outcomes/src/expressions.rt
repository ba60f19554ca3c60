// What expressions may be.
ghost use Rattle.std.specs.Prelude.{◌≡◌, ℕ, IfOk, OnOk, [], slice_get};
ghost use Rattle.smv_core.specs.declared.flat.FlatExpr.{All, Any};
ghost use Rattle.smv_conditions.specs.declared.offers.May.TheVariants.{Truths};
ghost use Rattle.smv_conditions.specs.Keep.{KeepsConditions};
ghost use Rattle.smv_conditions.specs.Chances.{AreMade};
ghost use Rattle.smv_conditions.specs.Chain.{AllMade};
ghost use Rattle.smv_conditions.specs.Offers.{IsMayMade, AreOffersMade};
ghost use Rattle.smv_cells.specs.Cells.{AreCellsMade};
ghost use Rattle.smv_cells.specs.Seen.{View, IsSeen};
ghost use Rattle.smv_outcome_lists.specs.Lists.{AreListsMade};
ghost use Rattle.smv_outcomes.specs.Remembered.{AreKnown, Remembers};
ghost use Rattle.smv_outcomes.specs.Outcomes.{IsMayOf, AreOffersOf, IsTruthOf, AreTruthsOf, AreTruthsAlong, AreListsOf, AreMembersOf, AddsMember, AreListedIn, IsSumOf};

use crate::bindings::{bound_named, bound_rests, same_for_each};
use smv_cells::Cell;
use smv_conditions::chances::{Chances, Join, chain_of, negated};
use smv_conditions::conditions::Conditions;
use smv_conditions::offers::{May, Offer, single, truths_of};
use smv_core::flat::{FlatExpr, FlatMember, FlatSigned, Simple};
use smv_core::seq::Seq;
use smv_free_variables::alike::all_agree;
use smv_free_variables::known::Known;
use smv_outcome_lists::combined::{chosen, matched, offers_of, valued};
use smv_outcome_lists::compared_lists;
use smv_outcome_lists::members::{add_numbers, within_of};
use smv_outcome_lists::pairs::{added_of, remainders_of};
use smv_outcome_lists::quantified::{all_of, any_of};
use smv_outcome_lists::reads::read_of;
use smv_problem::Problem;
use smv_problem_spots::places::constant_at;
use smv_spots::spots::Spot;
use std::alloc::{AllocError, Global};

// The place of a variable, if it is bound.
fn variable(b: &[Spot], var: u16) -> Option<Spot>
    ensures { result ≡ slice_get b.now var }
{
    b.get(var as usize).copied()
}

// Whether an expression is looked for among what is known before it is worked out: where that costs more than to look. The parts of a short chain are looked for by themselves.
fn is_looked_for(e: &FlatExpr) -> bool {
    match e {
        FlatExpr::All { .. } => true,
        FlatExpr::Any { .. } => true,
        FlatExpr::And { parts } => parts.len() > 2,
        FlatExpr::Or { parts } => parts.len() > 2,
        FlatExpr::Implies { parts } => parts.len() > 2,
        _ => false,
    }
}

/// What an expression may be. What is known of an expression that differs by its places in the text alone, under bindings that agree on what it reads, is not worked out again.
#[cycle(expressions)]
pub(crate) fn may_of<'a, S: Conditions>(
    s: &mut S,
    alloc: Global,
    problem: &Problem,
    cells: &[Cell<S::Condition>],
    known: &mut Known<'a, Chances<S::Condition>>,
    e: &'a FlatExpr,
    b: &[Spot],
) -> Result<May<S::Condition>, AllocError>
    requires cells_made { AreCellsMade (S.IsMade s.old) cells.now }
    requires known { AreKnown S.IsMade S.holds s.old problem.now cells.now known.old.entries.items }
    ensures keeps { KeepsConditions S.IsMade S.holds S.room s.old s.new }
    ensures made { IfOk result (λ m. IsMayMade (S.IsMade s.new) m) }
    ensures cells { IfOk result (λ m. AreCellsMade (S.IsMade s.new) cells.now) }
    ensures known { IfOk result (λ m. AreKnown S.IsMade S.holds s.new problem.entry.now cells.now known.new.entries.items) }
    ensures is { IfOk result (λ m. (v : View) → IsSeen S.holds s.old problem.entry.now cells.now v → IsMayOf S.holds s.new v e.now b.now m) }
{
    if is_looked_for(e) {
        let m = may_once(s, alloc, problem, cells, known, e, b)?;
        return Ok(m);
    }
    let m = may_anew(s, alloc, problem, cells, known, e, b)?;
    Ok(m)
}

// Truth values are remembered.
fn remember<'a, C: Copy>(
    alloc: Global,
    known: &mut Known<'a, Chances<C>>,
    e: &'a FlatExpr,
    b: &[Spot],
    m: &May<C>,
) -> Result<(), AllocError>
    ensures { OnOk result (Remembers known.old.entries.items known.new.entries.items e.entry b.now m.now) }
{
    match m {
        May::Truths(x) => {
            known.remember(alloc, e, b, *x)?;
            Ok(())
        }
        May::Values(_) => Ok(()),
    }
}

// What an expression may be, if that is known, and else worked out and remembered.
#[cycle(expressions)]
fn may_once<'a, S: Conditions>(
    s: &mut S,
    alloc: Global,
    problem: &Problem,
    cells: &[Cell<S::Condition>],
    known: &mut Known<'a, Chances<S::Condition>>,
    e: &'a FlatExpr,
    b: &[Spot],
) -> Result<May<S::Condition>, AllocError>
    requires cells_made { AreCellsMade (S.IsMade s.old) cells.now }
    requires known { AreKnown S.IsMade S.holds s.old problem.now cells.now known.old.entries.items }
    ensures keeps { KeepsConditions S.IsMade S.holds S.room s.old s.new }
    ensures made { IfOk result (λ m. IsMayMade (S.IsMade s.new) m) }
    ensures cells { IfOk result (λ m. AreCellsMade (S.IsMade s.new) cells.now) }
    ensures known { IfOk result (λ m. AreKnown S.IsMade S.holds s.new problem.entry.now cells.now known.new.entries.items) }
    ensures is { IfOk result (λ m. (v : View) → IsSeen S.holds s.old problem.entry.now cells.now v → IsMayOf S.holds s.new v e.now b.now m) }
{
    if let Some(x) = known.find(e, b) {
        return Ok(May::Truths(x));
    }
    let m = may_anew(s, alloc, problem, cells, known, e, b)?;
    remember(alloc, known, e, b, &m)?;
    Ok(m)
}

// What an expression may be, by its parts.
#[cycle(expressions)]
fn may_anew<'a, S: Conditions>(
    s: &mut S,
    alloc: Global,
    problem: &Problem,
    cells: &[Cell<S::Condition>],
    known: &mut Known<'a, Chances<S::Condition>>,
    e: &'a FlatExpr,
    b: &[Spot],
) -> Result<May<S::Condition>, AllocError>
    requires cells_made { AreCellsMade (S.IsMade s.old) cells.now }
    requires known { AreKnown S.IsMade S.holds s.old problem.now cells.now known.old.entries.items }
    ensures keeps { KeepsConditions S.IsMade S.holds S.room s.old s.new }
    ensures made { IfOk result (λ m. IsMayMade (S.IsMade s.new) m) }
    ensures cells { IfOk result (λ m. AreCellsMade (S.IsMade s.new) cells.now) }
    ensures known { IfOk result (λ m. AreKnown S.IsMade S.holds s.new problem.entry.now cells.now known.new.entries.items) }
    ensures is { IfOk result (λ m. (v : View) → IsSeen S.holds s.old problem.entry.now cells.now v → IsMayOf S.holds s.new v e.now b.now m) }
{
    match e {
        FlatExpr::Number { value, .. } => {
            let m = single(s, alloc, Some(Spot::Number { value: *value }))?;
            Ok(m)
        }
        FlatExpr::Loop { value, .. } => {
            let m = single(s, alloc, Some(Spot::Number { value: *value }))?;
            Ok(m)
        }
        FlatExpr::Var { var, .. } => {
            let m = single(s, alloc, variable(b, *var))?;
            Ok(m)
        }
        FlatExpr::Constant { list, value, .. } => {
            let m = single(s, alloc, constant_at(problem, *list, *value))?;
            Ok(m)
        }
        FlatExpr::Read {
            family,
            indexes,
            ..
        } => {
            let uss = lists_each(s, alloc, problem, cells, known, indexes.as_slice(), b)?;
            let offers = read_of(s, alloc, problem, cells, *family, uss.as_slice())?;
            Ok(valued(offers))
        }
        FlatExpr::Not { of, .. } => {
            let x = truth_of(s, alloc, problem, cells, known, of.get(), b)?;
            Ok(May::Truths(negated(x)))
        }
        FlatExpr::And { parts } => {
            let each = truths_each(s, alloc, problem, cells, known, parts.as_slice(), b)?;
            let x = chain_of(s, alloc, Join::And, each.as_slice())?;
            Ok(May::Truths(x))
        }
        FlatExpr::Or { parts } => {
            let each = truths_each(s, alloc, problem, cells, known, parts.as_slice(), b)?;
            let x = chain_of(s, alloc, Join::Or, each.as_slice())?;
            Ok(May::Truths(x))
        }
        FlatExpr::Implies { parts } => {
            let each = truths_each(s, alloc, problem, cells, known, parts.as_slice(), b)?;
            let x = chain_of(s, alloc, Join::Implies, each.as_slice())?;
            Ok(May::Truths(x))
        }
        FlatExpr::Iff { left, right } => {
            let x = truth_of(s, alloc, problem, cells, known, left.get(), b)?;
            let y = truth_of(s, alloc, problem, cells, known, right.get(), b)?;
            let z = matched(s, alloc, x, y)?;
            Ok(May::Truths(z))
        }
        FlatExpr::Compare { op, left, right } => {
            let us = offers_for(s, alloc, problem, cells, known, left.get(), b)?;
            let vs = offers_for(s, alloc, problem, cells, known, right.get(), b)?;
            let z = compared_lists(s, alloc, problem, *op, us.as_slice(), vs.as_slice())?;
            Ok(May::Truths(z))
        }
        FlatExpr::Within { left, set } => {
            let us = offers_for(s, alloc, problem, cells, known, left.get(), b)?;
            let vss = members_for(s, alloc, problem, cells, known, set.get(), b)?;
            let z = within_of(s, alloc, problem, us.as_slice(), vss.as_slice())?;
            Ok(May::Truths(z))
        }
        FlatExpr::Sum { first, more } => {
            let us = offers_for(s, alloc, problem, cells, known, first.get(), b)?;
            let sum = sum_of(s, alloc, problem, cells, known, us, more.as_slice(), b)?;
            Ok(valued(sum))
        }
        FlatExpr::Modulo { of, by, .. } => {
            let us = offers_for(s, alloc, problem, cells, known, of.get(), b)?;
            let rest = remainders_of(s, alloc, us.as_slice(), *by)?;
            Ok(valued(rest))
        }
        FlatExpr::Choose { cond, yes, no } => {
            let x = truth_of(s, alloc, problem, cells, known, cond.get(), b)?;
            let us = offers_for(s, alloc, problem, cells, known, yes.get(), b)?;
            let vs = offers_for(s, alloc, problem, cells, known, no.get(), b)?;
            let offers = chosen(s, alloc, x, us.as_slice(), vs.as_slice())?;
            Ok(valued(offers))
        }
        FlatExpr::All {
            body,
            var,
            over,
            ..
        } => {
            let z = all_over(s, alloc, problem, cells, known, body.get(), *var, *over, b)?;
            Ok(May::Truths(z))
        }
        FlatExpr::Any {
            body,
            var,
            over,
            ..
        } => {
            let z = any_over(s, alloc, problem, cells, known, body.get(), *var, *over, b)?;
            Ok(May::Truths(z))
        }
        FlatExpr::List { .. } => {
            let m = single(s, alloc, None)?;
            Ok(m)
        }
        FlatExpr::Each { .. } => {
            let m = single(s, alloc, None)?;
            Ok(m)
        }
    }
}

// The conjunction of a body over all values of a type.
#[cycle(expressions)]
fn all_over<'a, S: Conditions>(
    s: &mut S,
    alloc: Global,
    problem: &Problem,
    cells: &[Cell<S::Condition>],
    known: &mut Known<'a, Chances<S::Condition>>,
    body: &'a FlatExpr,
    var: u16,
    over: Simple,
    b: &[Spot],
) -> Result<Chances<S::Condition>, AllocError>
    requires cells_made { AreCellsMade (S.IsMade s.old) cells.now }
    requires known { AreKnown S.IsMade S.holds s.old problem.now cells.now known.old.entries.items }
    ensures keeps { KeepsConditions S.IsMade S.holds S.room s.old s.new }
    ensures made { IfOk result (λ z. AreMade (S.IsMade s.new) z) }
    ensures cells { IfOk result (λ z. AreCellsMade (S.IsMade s.new) cells.now) }
    ensures known { IfOk result (λ z. AreKnown S.IsMade S.holds s.new problem.entry.now cells.now known.new.entries.items) }
    ensures is { IfOk result (λ z. (v : View) → IsSeen S.holds s.old problem.entry.now cells.now v → (at : ℕ) → IsMayOf S.holds s.new v (All body.now var over at) b.now (Truths z)) }
{
    let named = bound_named(alloc, problem, b, var, over)?;
    let rests = bound_rests(alloc, problem, b, var, over)?;
    let bindings = named.as_slice();
    let each = truths_along(s, alloc, problem, cells, known, body, bindings)?;
    let given = each.as_slice();
    let others = truths_behind(
        s,
        alloc,
        problem,
        cells,
        known,
        body,
        bindings,
        given,
        rests.as_slice(),
    )?;
    let z = all_of(s, alloc, given, others.as_slice())?;
    Ok(z)
}

// The disjunction of a body over all values of a type.
#[cycle(expressions)]
fn any_over<'a, S: Conditions>(
    s: &mut S,
    alloc: Global,
    problem: &Problem,
    cells: &[Cell<S::Condition>],
    known: &mut Known<'a, Chances<S::Condition>>,
    body: &'a FlatExpr,
    var: u16,
    over: Simple,
    b: &[Spot],
) -> Result<Chances<S::Condition>, AllocError>
    requires cells_made { AreCellsMade (S.IsMade s.old) cells.now }
    requires known { AreKnown S.IsMade S.holds s.old problem.now cells.now known.old.entries.items }
    ensures keeps { KeepsConditions S.IsMade S.holds S.room s.old s.new }
    ensures made { IfOk result (λ z. AreMade (S.IsMade s.new) z) }
    ensures cells { IfOk result (λ z. AreCellsMade (S.IsMade s.new) cells.now) }
    ensures known { IfOk result (λ z. AreKnown S.IsMade S.holds s.new problem.entry.now cells.now known.new.entries.items) }
    ensures is { IfOk result (λ z. (v : View) → IsSeen S.holds s.old problem.entry.now cells.now v → (at : ℕ) → IsMayOf S.holds s.new v (Any body.now var over at) b.now (Truths z)) }
{
    let named = bound_named(alloc, problem, b, var, over)?;
    let rests = bound_rests(alloc, problem, b, var, over)?;
    let bindings = named.as_slice();
    let each = truths_along(s, alloc, problem, cells, known, body, bindings)?;
    let given = each.as_slice();
    let others = truths_behind(
        s,
        alloc,
        problem,
        cells,
        known,
        body,
        bindings,
        given,
        rests.as_slice(),
    )?;
    let z = any_of(s, alloc, given, others.as_slice())?;
    Ok(z)
}

/// The outcomes that an expression may have, each once.
#[cycle(expressions)]
pub fn offers_for<'a, S: Conditions>(
    s: &mut S,
    alloc: Global,
    problem: &Problem,
    cells: &[Cell<S::Condition>],
    known: &mut Known<'a, Chances<S::Condition>>,
    e: &'a FlatExpr,
    b: &[Spot],
) -> Result<Vec<Offer<S::Condition>>, AllocError>
    requires cells_made { AreCellsMade (S.IsMade s.old) cells.now }
    requires known { AreKnown S.IsMade S.holds s.old problem.now cells.now known.old.entries.items }
    ensures keeps { KeepsConditions S.IsMade S.holds S.room s.old s.new }
    ensures made { IfOk result (λ offers. AreOffersMade (S.IsMade s.new) offers.items) }
    ensures cells { IfOk result (λ offers. AreCellsMade (S.IsMade s.new) cells.now) }
    ensures known { IfOk result (λ offers. AreKnown S.IsMade S.holds s.new problem.entry.now cells.now known.new.entries.items) }
    ensures are { IfOk result (λ offers. (v : View) → IsSeen S.holds s.old problem.entry.now cells.now v → AreOffersOf S.holds s.new v e.now b.now offers.items) }
{
    let m = may_of(s, alloc, problem, cells, known, e, b)?;
    let offers = offers_of(s, alloc, &m)?;
    Ok(offers)
}

/// The truth values that an expression may have.
#[cycle(expressions)]
pub fn truth_of<'a, S: Conditions>(
    s: &mut S,
    alloc: Global,
    problem: &Problem,
    cells: &[Cell<S::Condition>],
    known: &mut Known<'a, Chances<S::Condition>>,
    e: &'a FlatExpr,
    b: &[Spot],
) -> Result<Chances<S::Condition>, AllocError>
    requires cells_made { AreCellsMade (S.IsMade s.old) cells.now }
    requires known { AreKnown S.IsMade S.holds s.old problem.now cells.now known.old.entries.items }
    ensures keeps { KeepsConditions S.IsMade S.holds S.room s.old s.new }
    ensures made { IfOk result (λ x. AreMade (S.IsMade s.new) x) }
    ensures cells { IfOk result (λ x. AreCellsMade (S.IsMade s.new) cells.now) }
    ensures known { IfOk result (λ x. AreKnown S.IsMade S.holds s.new problem.entry.now cells.now known.new.entries.items) }
    ensures is { IfOk result (λ x. (v : View) → IsSeen S.holds s.old problem.entry.now cells.now v → IsTruthOf S.holds s.new v e.now b.now x) }
{
    let m = may_of(s, alloc, problem, cells, known, e, b)?;
    let x = truths_of(s, alloc, &m)?;
    Ok(x)
}

// The truth values that each of these expressions may have.
#[cycle(expressions)]
fn truths_each<'a, S: Conditions>(
    s: &mut S,
    alloc: Global,
    problem: &Problem,
    cells: &[Cell<S::Condition>],
    known: &mut Known<'a, Chances<S::Condition>>,
    parts: &'a [FlatExpr],
    b: &[Spot],
) -> Result<Vec<Chances<S::Condition>>, AllocError>
    requires cells_made { AreCellsMade (S.IsMade s.old) cells.now }
    requires known { AreKnown S.IsMade S.holds s.old problem.now cells.now known.old.entries.items }
    ensures keeps { KeepsConditions S.IsMade S.holds S.room s.old s.new }
    ensures made { IfOk result (λ each. AllMade (S.IsMade s.new) each.items) }
    ensures cells { IfOk result (λ each. AreCellsMade (S.IsMade s.new) cells.now) }
    ensures known { IfOk result (λ each. AreKnown S.IsMade S.holds s.new problem.entry.now cells.now known.new.entries.items) }
    ensures are { IfOk result (λ each. (v : View) → IsSeen S.holds s.old problem.entry.now cells.now v → AreTruthsOf S.holds s.new v b.now parts.now [] each.items) }
{
    let mut each = Vec::new(alloc);
    for part in parts {
        let x = truth_of(s, alloc, problem, cells, known, part, b)?;
        each.push(x)?;
    }
    Ok(each)
}

// The truth values that an expression may have under each of these bindings; it is worked out once where they agree on what it reads.
#[cycle(expressions)]
fn truths_along<'a, S: Conditions>(
    s: &mut S,
    alloc: Global,
    problem: &Problem,
    cells: &[Cell<S::Condition>],
    known: &mut Known<'a, Chances<S::Condition>>,
    body: &'a FlatExpr,
    bindings: &[Seq<Spot>],
) -> Result<Vec<Chances<S::Condition>>, AllocError>
    requires cells_made { AreCellsMade (S.IsMade s.old) cells.now }
    requires known { AreKnown S.IsMade S.holds s.old problem.now cells.now known.old.entries.items }
    ensures keeps { KeepsConditions S.IsMade S.holds S.room s.old s.new }
    ensures made { IfOk result (λ each. AllMade (S.IsMade s.new) each.items) }
    ensures cells { IfOk result (λ each. AreCellsMade (S.IsMade s.new) cells.now) }
    ensures known { IfOk result (λ each. AreKnown S.IsMade S.holds s.new problem.entry.now cells.now known.new.entries.items) }
    ensures are { IfOk result (λ each. (v : View) → IsSeen S.holds s.old problem.entry.now cells.now v → AreTruthsAlong S.holds s.new v body.now bindings.now [] each.items) }
{
    let Some((first, others)) = bindings.split_first() else {
        return Ok(Vec::new(alloc));
    };
    let b = first.as_slice();
    if all_agree(body, b, others) {
        let x = truth_of(s, alloc, problem, cells, known, body, b)?;
        let same = same_for_each(alloc, x, bindings)?;
        return Ok(same);
    }
    let each = truths_apart(s, alloc, problem, cells, known, body, bindings)?;
    Ok(each)
}

// The truth values that an expression may have under each of these bindings, where those under others are given; it is not worked out again where all agree on what it reads.
#[cycle(expressions)]
fn truths_behind<'a, S: Conditions>(
    s: &mut S,
    alloc: Global,
    problem: &Problem,
    cells: &[Cell<S::Condition>],
    known: &mut Known<'a, Chances<S::Condition>>,
    body: &'a FlatExpr,
    before: &[Seq<Spot>],
    given: &[Chances<S::Condition>],
    bindings: &[Seq<Spot>],
) -> Result<Vec<Chances<S::Condition>>, AllocError>
    requires cells_made { AreCellsMade (S.IsMade s.old) cells.now }
    requires known { AreKnown S.IsMade S.holds s.old problem.now cells.now known.old.entries.items }
    requires given_made { AllMade (S.IsMade s.old) given.now }
    ensures keeps { KeepsConditions S.IsMade S.holds S.room s.old s.new }
    ensures made { IfOk result (λ each. AllMade (S.IsMade s.new) each.items) }
    ensures cells { IfOk result (λ each. AreCellsMade (S.IsMade s.new) cells.now) }
    ensures known { IfOk result (λ each. AreKnown S.IsMade S.holds s.new problem.entry.now cells.now known.new.entries.items) }
    ensures are { IfOk result (λ each. (v : View) → IsSeen S.holds s.old problem.entry.now cells.now v → AreTruthsAlong S.holds s.old v body.now before.now [] given.now → AreTruthsAlong S.holds s.new v body.now bindings.now [] each.items) }
{
    if let Some((first, _)) = before.split_first() {
        if let Some((x, _)) = given.split_first() {
            if all_agree(body, first.as_slice(), bindings) {
                let same = same_for_each(alloc, *x, bindings)?;
                return Ok(same);
            }
        }
    }
    let each = truths_along(s, alloc, problem, cells, known, body, bindings)?;
    Ok(each)
}

// The truth values that an expression may have under each of these bindings, one by one.
#[cycle(expressions)]
fn truths_apart<'a, S: Conditions>(
    s: &mut S,
    alloc: Global,
    problem: &Problem,
    cells: &[Cell<S::Condition>],
    known: &mut Known<'a, Chances<S::Condition>>,
    body: &'a FlatExpr,
    bindings: &[Seq<Spot>],
) -> Result<Vec<Chances<S::Condition>>, AllocError>
    requires cells_made { AreCellsMade (S.IsMade s.old) cells.now }
    requires known { AreKnown S.IsMade S.holds s.old problem.now cells.now known.old.entries.items }
    ensures keeps { KeepsConditions S.IsMade S.holds S.room s.old s.new }
    ensures made { IfOk result (λ each. AllMade (S.IsMade s.new) each.items) }
    ensures cells { IfOk result (λ each. AreCellsMade (S.IsMade s.new) cells.now) }
    ensures known { IfOk result (λ each. AreKnown S.IsMade S.holds s.new problem.entry.now cells.now known.new.entries.items) }
    ensures are { IfOk result (λ each. (v : View) → IsSeen S.holds s.old problem.entry.now cells.now v → AreTruthsAlong S.holds s.new v body.now bindings.now [] each.items) }
{
    let mut each = Vec::new(alloc);
    for inner in bindings {
        let x = truth_of(s, alloc, problem, cells, known, body, inner.as_slice())?;
        each.push(x)?;
    }
    Ok(each)
}

// The outcomes of each of these expressions.
#[cycle(expressions)]
fn lists_each<'a, S: Conditions>(
    s: &mut S,
    alloc: Global,
    problem: &Problem,
    cells: &[Cell<S::Condition>],
    known: &mut Known<'a, Chances<S::Condition>>,
    parts: &'a [FlatExpr],
    b: &[Spot],
) -> Result<Vec<Seq<Offer<S::Condition>>>, AllocError>
    requires cells_made { AreCellsMade (S.IsMade s.old) cells.now }
    requires known { AreKnown S.IsMade S.holds s.old problem.now cells.now known.old.entries.items }
    ensures keeps { KeepsConditions S.IsMade S.holds S.room s.old s.new }
    ensures made { IfOk result (λ each. AreListsMade (S.IsMade s.new) each.items) }
    ensures cells { IfOk result (λ each. AreCellsMade (S.IsMade s.new) cells.now) }
    ensures known { IfOk result (λ each. AreKnown S.IsMade S.holds s.new problem.entry.now cells.now known.new.entries.items) }
    ensures are { IfOk result (λ each. (v : View) → IsSeen S.holds s.old problem.entry.now cells.now v → AreListsOf S.holds s.new v b.now parts.now [] each.items) }
{
    let mut each = Vec::new(alloc);
    for part in parts {
        let us = offers_for(s, alloc, problem, cells, known, part, b)?;
        each.push(Seq::from_vec(us))?;
    }
    Ok(each)
}

// The outcomes of each member of a listed set; what is none has no member.
#[cycle(expressions)]
fn members_for<'a, S: Conditions>(
    s: &mut S,
    alloc: Global,
    problem: &Problem,
    cells: &[Cell<S::Condition>],
    known: &mut Known<'a, Chances<S::Condition>>,
    set: &'a FlatExpr,
    b: &[Spot],
) -> Result<Vec<Seq<Offer<S::Condition>>>, AllocError>
    requires cells_made { AreCellsMade (S.IsMade s.old) cells.now }
    requires known { AreKnown S.IsMade S.holds s.old problem.now cells.now known.old.entries.items }
    ensures keeps { KeepsConditions S.IsMade S.holds S.room s.old s.new }
    ensures made { IfOk result (λ each. AreListsMade (S.IsMade s.new) each.items) }
    ensures cells { IfOk result (λ each. AreCellsMade (S.IsMade s.new) cells.now) }
    ensures known { IfOk result (λ each. AreKnown S.IsMade S.holds s.new problem.entry.now cells.now known.new.entries.items) }
    ensures are { IfOk result (λ each. (v : View) → IsSeen S.holds s.old problem.entry.now cells.now v → AreListedIn S.holds s.new v b.now set.now each.items) }
{
    match set {
        FlatExpr::List { members, .. } => {
            let each = members_each(s, alloc, problem, cells, known, members.as_slice(), b)?;
            Ok(each)
        }
        _ => Ok(Vec::new(alloc)),
    }
}

// The outcomes of each of these members; a span has each of its numbers.
#[cycle(expressions)]
fn members_each<'a, S: Conditions>(
    s: &mut S,
    alloc: Global,
    problem: &Problem,
    cells: &[Cell<S::Condition>],
    known: &mut Known<'a, Chances<S::Condition>>,
    members: &'a [FlatMember],
    b: &[Spot],
) -> Result<Vec<Seq<Offer<S::Condition>>>, AllocError>
    requires cells_made { AreCellsMade (S.IsMade s.old) cells.now }
    requires known { AreKnown S.IsMade S.holds s.old problem.now cells.now known.old.entries.items }
    ensures keeps { KeepsConditions S.IsMade S.holds S.room s.old s.new }
    ensures made { IfOk result (λ each. AreListsMade (S.IsMade s.new) each.items) }
    ensures cells { IfOk result (λ each. AreCellsMade (S.IsMade s.new) cells.now) }
    ensures known { IfOk result (λ each. AreKnown S.IsMade S.holds s.new problem.entry.now cells.now known.new.entries.items) }
    ensures are { IfOk result (λ each. (v : View) → IsSeen S.holds s.old problem.entry.now cells.now v → AreMembersOf S.holds s.new v b.now members.now [] each.items) }
{
    let mut each = Vec::new(alloc);
    for member in members {
        add_member(s, alloc, problem, cells, known, &mut each, member, b)?;
    }
    Ok(each)
}

// The outcomes of a member, behind those of others.
#[cycle(expressions)]
fn add_member<'a, S: Conditions>(
    s: &mut S,
    alloc: Global,
    problem: &Problem,
    cells: &[Cell<S::Condition>],
    known: &mut Known<'a, Chances<S::Condition>>,
    each: &mut Vec<Seq<Offer<S::Condition>>>,
    member: &'a FlatMember,
    b: &[Spot],
) -> Result<(), AllocError>
    requires cells_made { AreCellsMade (S.IsMade s.old) cells.now }
    requires known { AreKnown S.IsMade S.holds s.old problem.now cells.now known.old.entries.items }
    requires each_made { AreListsMade (S.IsMade s.old) each.old.items }
    ensures keeps { KeepsConditions S.IsMade S.holds S.room s.old s.new }
    ensures made { OnOk result (AreListsMade (S.IsMade s.new) each.new.items) }
    ensures cells { OnOk result (AreCellsMade (S.IsMade s.new) cells.now) }
    ensures known { OnOk result (AreKnown S.IsMade S.holds s.new problem.entry.now cells.now known.new.entries.items) }
    ensures adds { OnOk result ((v : View) → IsSeen S.holds s.old problem.entry.now cells.now v → AddsMember S.holds s.new v b.now member.now each.old.items each.new.items) }
{
    match member {
        FlatMember::One { of } => {
            let us = offers_for(s, alloc, problem, cells, known, of, b)?;
            each.push(Seq::from_vec(us))?;
            Ok(())
        }
        FlatMember::Span { span, .. } => {
            add_numbers(s, alloc, each, span.low, span.high)?;
            Ok(())
        }
    }
}

// A chain of sums and differences that begins with these outcomes.
#[cycle(expressions)]
fn sum_of<'a, S: Conditions>(
    s: &mut S,
    alloc: Global,
    problem: &Problem,
    cells: &[Cell<S::Condition>],
    known: &mut Known<'a, Chances<S::Condition>>,
    first: Vec<Offer<S::Condition>>,
    more: &'a [FlatSigned],
    b: &[Spot],
) -> Result<Vec<Offer<S::Condition>>, AllocError>
    requires cells_made { AreCellsMade (S.IsMade s.old) cells.now }
    requires known { AreKnown S.IsMade S.holds s.old problem.now cells.now known.old.entries.items }
    requires first_made { AreOffersMade (S.IsMade s.old) first.items }
    ensures keeps { KeepsConditions S.IsMade S.holds S.room s.old s.new }
    ensures made { IfOk result (λ sum. AreOffersMade (S.IsMade s.new) sum.items) }
    ensures cells { IfOk result (λ sum. AreCellsMade (S.IsMade s.new) cells.now) }
    ensures known { IfOk result (λ sum. AreKnown S.IsMade S.holds s.new problem.entry.now cells.now known.new.entries.items) }
    ensures is { IfOk result (λ sum. (v : View) → IsSeen S.holds s.old problem.entry.now cells.now v → IsSumOf S.holds s.old s.new v b.now first.items more.now [] sum.items) }
{
    let mut sum = first;
    for signed in more {
        let vs = offers_for(s, alloc, problem, cells, known, &signed.of, b)?;
        let others = vs.as_slice();
        sum = added_of(s, alloc, signed.minus, sum.as_slice(), others)?;
    }
    Ok(sum)
}

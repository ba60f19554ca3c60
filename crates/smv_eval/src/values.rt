// What an expression may be in an abstract state, as written values.
ghost use Rattle.std.specs.Prelude.{◌≡◌, List, IfOk, OnOk, map, min, position, slice_get, unwrap_or, nat_eq, []};
ghost use Rattle.std.specs.List.{list_any};
ghost use Rattle.smv_core.specs.declared.flat.Simple.{Simple as Over};
ghost use Rattle.law_obligations.specs.Sets.{Has};
ghost use Rattle.law_obligations.specs.Places.{Place};
ghost use Rattle.law_obligations.specs.May.{may as may_be};
ghost use Rattle.law_obligations.specs.Covers.{IsIndexType};
ghost use Rattle.law_designs.specs.FlatKinds.{FlatKind};
ghost use Rattle.smv_problem.specs.Written.{written_spot, written_outcome};
ghost use Rattle.smv_problem.specs.WellFormed.{IsProblem, IsOfKind, OfStates};
ghost use Rattle.smv_eval.specs.Answers as spec;
ghost use Rattle.smv_eval.specs.Answers.{IsSetOf, is_same_value, with_offer, with_offers, with_value};

use crate::cells_of;
use smv_conditions::offers::Offer;
use smv_conditions::stores::Plain;
use smv_core::Seq;
use smv_core::flat::{FlatExpr, Simple};
use smv_outcomes::expressions::offers_for;
use smv_outcomes::nothing_known;
use smv_problem::{AbsState, AbsValue, Problem};
use smv_problem_spots::numbers::{constants, name_number};
use smv_spots::spots::Spot;
use std::alloc::{AllocError, Global};

// The enumeration of a type, if it is one.
fn list_over(over: Simple) -> Option<u16>
    ensures { result ≡ spec.list_over over }
{
    match over {
        Simple::Enum { list } => Some(list),
        Simple::Range { .. } => None,
        Simple::Set { .. } => None,
    }
}

/// The enumeration of which the values of a family are, if they are of one.
pub fn list_for(problem: &Problem, family: u16) -> Option<u16>
    ensures { result ≡ spec.list_for (slice_get problem.entry.now.families family) }
{
    match problem.families.as_slice().get(family as usize) {
        Some(family) => list_over(family.value),
        None => None,
    }
}

// The enumeration of which an expression is, where no variable is of one.
fn list_in(problem: &Problem, e: &FlatExpr) -> Option<u16>
    ensures { result ≡ spec.list_in problem.entry.now.families e.now }
{
    match e {
        FlatExpr::Read { family, .. } => list_for(problem, *family),
        FlatExpr::Constant { list, .. } => Some(*list),
        FlatExpr::Choose { yes, .. } => list_in(problem, yes.get()),
        _ => None,
    }
}

// The place of a number among these, if it is there.
fn place_among(numbers: &[usize], number: usize) -> Option<usize>
    ensures { result ≡ position (nat_eq number) numbers.now }
{
    numbers.iter().position(|other| number == *other)
}

// The place of a number in an enumeration, 0 where it is not there.
fn place_in(problem: &Problem, list: u16, number: usize) -> u16
    ensures { result ≡ spec.place_in problem.entry.now list number }
{
    let place = match problem.names.as_slice().get(list as usize) {
        Some(numbers) => place_among(numbers.as_slice(), number).unwrap_or(0),
        None => 0,
    };
    place.min(constants(problem, list) as usize) as u16
}

// A constant by its place in an enumeration.
fn constant_in(problem: &Problem, list: Option<u16>, number: usize) -> AbsValue
    ensures { result ≡ spec.constant_in problem.entry.now list number }
{
    match list {
        Some(list) => AbsValue::Constant {
            place: place_in(problem, list, number),
        },
        None => AbsValue::Undefined,
    }
}

/// An outcome as it is written, where its constants are of this enumeration.
pub fn value_at(problem: &Problem, list: Option<u16>, outcome: Option<Spot>) -> AbsValue
    ensures { result ≡ spec.value_at problem.entry.now list outcome }
{
    match outcome {
        None => AbsValue::Undefined,
        Some(Spot::Number { value }) => AbsValue::Number { value },
        Some(Spot::Constant { list: other, value }) => {
            constant_in(problem, list, name_number(problem, other, value))
        }
        Some(Spot::Class { class, .. }) => AbsValue::Named {
            class: class.min(255) as u8,
        },
        Some(Spot::Rest { rest, .. }) => AbsValue::Rest {
            gap: rest.min(255) as u8,
        },
    }
}

// The same value.
fn is_same(v: AbsValue, w: AbsValue) -> bool
    ensures { result ≡ is_same_value v w }
{
    match (v, w) {
        (AbsValue::Number { value: k }, AbsValue::Number { value: l }) => k == l,
        (AbsValue::Constant { place: k }, AbsValue::Constant { place: l }) => k == l,
        (AbsValue::Named { class: k }, AbsValue::Named { class: l }) => k == l,
        (AbsValue::Rest { gap: k }, AbsValue::Rest { gap: l }) => k == l,
        (AbsValue::Undefined, AbsValue::Undefined) => true,
        _ => false,
    }
}

// Whether a value is one of these.
fn is_among(values: &[AbsValue], value: AbsValue) -> bool
    ensures { result ≡ list_any (is_same_value value) values.now }
{
    values.iter().any(|other| is_same(value, *other))
}

// One value more, where it is new.
fn add_value(values: &mut Seq<AbsValue>, value: AbsValue) -> Result<(), AllocError>
    ensures { OnOk result (values.new ≡ with_value values.old value) }
{
    if !is_among(values.as_slice(), value) {
        values.push(value)?;
    }
    Ok(())
}

// One value more, where it is offered.
fn add_offer(
    problem: &Problem,
    list: Option<u16>,
    values: &mut Seq<AbsValue>,
    offer: &Offer<bool>,
) -> Result<(), AllocError>
    ensures { OnOk result (values.new ≡ with_offer problem.entry.now list values.old offer.now) }
{
    if offer.when {
        add_value(values, value_at(problem, list, offer.outcome))?;
    }
    Ok(())
}

/// The values that are offered, each once, where constants are of this enumeration.
pub fn values_of(
    alloc: Global,
    problem: &Problem,
    list: Option<u16>,
    offers: &[Offer<bool>],
) -> Result<Seq<AbsValue>, AllocError>
    ensures { IfOk result (λ values. values ≡ with_offers problem.entry.now list [] offers.now) }
{
    let mut values = Seq::new(alloc);
    for offer in offers {
        add_offer(problem, list, &mut values, offer)?;
    }
    Ok(values)
}

/// The values that are offered, in order, where constants are of this enumeration.
pub(crate) fn offered_values(
    alloc: Global,
    problem: &Problem,
    list: Option<u16>,
    offers: &[Offer<bool>],
) -> Result<Seq<AbsValue>, AllocError>
    ensures { IfOk result (λ values. values ≡ spec.offered_values problem.entry.now list offers.now) }
{
    let mut values = Seq::new(alloc);
    for offer in offers {
        if offer.when {
            values.push(value_at(problem, list, offer.outcome))?;
        }
    }
    Ok(values)
}

/// What an expression may be in an abstract state, each outcome once; its variables are of index types.
#[tactic(auto, using(crate::proofs::ValueLaws::cells_made, smv_outcomes::proofs::KnownLaws::none_known))]
pub fn may(
    alloc: Global,
    problem: &Problem,
    e: &FlatExpr,
    bindings: &[Spot],
    s: &AbsState,
) -> Result<Seq<AbsValue>, AllocError>
    requires { IsProblem problem.now }
    ensures { IfOk result (λ values. OfStates problem.entry.now s.entry.now (λ c a. (over : List Over) (b : List Place) (kind : FlatKind) → ((t : Over) → Has over t → IsIndexType t) → IsOfKind c e.now over b kind → bindings.now ≡ map (written_spot c.problem.world.classes) b →
        IsSetOf (map (written_outcome c.problem.world.classes kind) (may_be c.problem.world c.problem.kept a e.now b)) values)) }
{
    let cells = cells_of(alloc, problem, s)?;
    let mut plain = Plain {};
    let mut known = nothing_known(alloc);
    let offers = offers_for(
        &mut plain,
        alloc,
        problem,
        cells.as_slice(),
        &mut known,
        e,
        bindings,
    )?;
    let values = values_of(alloc, problem, list_in(problem, e), offers.as_slice())?;
    Ok(values)
}

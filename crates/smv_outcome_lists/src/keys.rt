// Outcomes in order: lists in two parts by a bound.
ghost use Rattle.std.specs.Prelude.{◌≡◌, [], ◌∷◌, IfOk, Some};
ghost use Rattle.std.specs.List.{list_any};
ghost use Rattle.smv_spots.specs.Answers.{answers_of};
ghost use Rattle.smv_outcome_lists.specs.Orders.{value_key, name_key, key_of, is_below, is_low, lower, upper, by_value, by_name, apart, is_constant, keys_among};

use smv_conditions::offers::Offer;
use smv_core::tree::Op;
use smv_problem::Problem;
use smv_problem_spots::numbers::name_number;
use smv_spots::answers::Answers;
use smv_spots::spots::Spot;
use std::alloc::{AllocError, Global};

/// What has a key: numbers, each its own, or constants, each the number of its name.
#[derive(Clone, Copy)]
pub enum Keys {
    Values,
    Names,
}

/// A list in two parts: the outcomes whose keys lie below a bound, and the others.
#[derive(Drop)]
pub struct Parts<C> {
    pub low: Vec<Offer<C>>,
    pub high: Vec<Offer<C>>,
}

// The key of a number.
fn value_key(keys: Keys, value: u16) -> Option<usize>
    ensures { result ≡ value_key keys value }
{
    match keys {
        Keys::Values => Some(value as usize),
        Keys::Names => None,
    }
}

// The key of a constant by the number of its name.
fn name_key(keys: Keys, number: usize) -> Option<usize>
    ensures { result ≡ name_key keys number }
{
    match keys {
        Keys::Values => None,
        Keys::Names => Some(number),
    }
}

// The key of an outcome, none where it has none.
fn key_of(problem: &Problem, keys: Keys, outcome: Option<Spot>) -> Option<usize>
    ensures { result ≡ key_of problem.entry.now keys outcome }
{
    match outcome {
        Some(Spot::Number { value }) => value_key(keys, value),
        Some(Spot::Constant { list, value }) => name_key(keys, name_number(problem, list, value)),
        Some(Spot::Class { .. }) => None,
        Some(Spot::Rest { .. }) => None,
        None => None,
    }
}

// A key below a bound, any where there is no bound.
fn is_below(bound: Option<usize>, key: Option<usize>) -> bool
    ensures { result ≡ is_below bound key }
{
    match key {
        None => false,
        Some(key) => match bound {
            None => true,
            Some(bound) => key < bound,
        },
    }
}

// An outcome whose key lies below a bound.
fn is_low(problem: &Problem, keys: Keys, bound: Option<usize>, outcome: Option<Spot>) -> bool
    ensures { result ≡ is_low problem.entry.now keys bound outcome }
{
    is_below(bound, key_of(problem, keys, outcome))
}

// The outcomes below a bound.
#[tactic(auto, using(crate::proofs::OrderLaws::kept), unfolding(crate::specs::Orders::lower, crate::specs::Orders::upper))]
fn lower<C: Copy>(
    alloc: Global,
    problem: &Problem,
    keys: Keys,
    bound: Option<usize>,
    offers: &[Offer<C>],
) -> Result<Vec<Offer<C>>, AllocError>
    ensures { IfOk result (λ part. part.items ≡ lower problem.entry.now keys bound offers.now) }
{
    let mut part = Vec::new(alloc);
    for offer in offers {
        if is_low(problem, keys, bound, offer.outcome) {
            part.push(*offer)?;
        }
    }
    Ok(part)
}

// The outcomes that are not below it.
#[tactic(auto, using(crate::proofs::OrderLaws::kept), unfolding(crate::specs::Orders::lower, crate::specs::Orders::upper))]
fn upper<C: Copy>(
    alloc: Global,
    problem: &Problem,
    keys: Keys,
    bound: Option<usize>,
    offers: &[Offer<C>],
) -> Result<Vec<Offer<C>>, AllocError>
    ensures { IfOk result (λ part. part.items ≡ upper problem.entry.now keys bound offers.now) }
{
    let mut part = Vec::new(alloc);
    for offer in offers {
        if !is_low(problem, keys, bound, offer.outcome) {
            part.push(*offer)?;
        }
    }
    Ok(part)
}

/// A list in two parts by a bound.
pub fn parted<C: Copy>(
    alloc: Global,
    problem: &Problem,
    keys: Keys,
    bound: Option<usize>,
    offers: &[Offer<C>],
) -> Result<Parts<C>, AllocError>
    ensures low { IfOk result (λ parts. parts.low.items ≡ lower problem.entry.now keys bound offers.now) }
    ensures high { IfOk result (λ parts. parts.high.items ≡ upper problem.entry.now keys bound offers.now) }
{
    let low = lower(alloc, problem, keys, bound, offers)?;
    let high = upper(alloc, problem, keys, bound, offers)?;
    Ok(Parts { low, high })
}

// One answer.
fn one(t: Option<bool>) -> Answers
    ensures { result ≡ answers_of (t ∷ []) }
{
    Answers {
        no: t == Some(false),
        yes: t == Some(true),
        neither: t.is_none(),
    }
}

// What a comparison gives where the left number lies below the right one, or above it.
fn by_value(op: Op, below: bool) -> bool
    ensures { result ≡ by_value op below }
{
    match op {
        Op::Equal => false,
        Op::Differ => true,
        Op::Less => below,
        Op::AtMost => below,
        Op::Greater => !below,
        Op::AtLeast => !below,
    }
}

// What a comparison gives on two names.
fn by_name(op: Op) -> Option<bool>
    ensures { result ≡ by_name op }
{
    match op {
        Op::Equal => Some(false),
        Op::Differ => Some(true),
        Op::Less => None,
        Op::AtMost => None,
        Op::Greater => None,
        Op::AtLeast => None,
    }
}

/// What a comparison gives on two keys, the left one below the right one or above it.
pub fn apart(op: Op, keys: Keys, below: bool) -> Answers
    ensures { result ≡ apart op keys below }
{
    match keys {
        Keys::Values => one(Some(by_value(op, below))),
        Keys::Names => one(by_name(op)),
    }
}

// An outcome that is a constant.
fn is_constant(outcome: Option<Spot>) -> bool
    ensures { result ≡ is_constant outcome }
{
    matches!(outcome, Some(Spot::Constant { .. }))
}

// A constant is among these.
fn has_constant<C>(offers: &[Offer<C>]) -> bool
    ensures { result ≡ list_any (λ o. is_constant o.outcome) offers.now }
{
    offers.iter().any(|offer| is_constant(offer.outcome))
}

/// What has a key among these: constants, if there is one.
pub(crate) fn keys_among<C>(offers: &[Offer<C>]) -> Keys
    ensures { result ≡ keys_among offers.now }
{
    if has_constant(offers) {
        Keys::Names
    } else {
        Keys::Values
    }
}

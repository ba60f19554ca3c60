// What an expression may be: outcomes, each with a condition under which it is possible.
ghost use Rattle.std.specs.Prelude.{◌≡◌, ℕ, Bool, true, false, IfOk, [], ◌∷◌};
ghost use Rattle.smv_core.specs.FlatMeaning.{Numbered};
ghost use Rattle.smv_conditions.specs.Keep.{KeepsConditions};
ghost use Rattle.smv_conditions.specs.Chances.{AreMade, mix_at};
ghost use Rattle.smv_conditions.specs.Offers.{AreOffersMade, IsMayMade, Offers, with_truth, offers_mix, may_mix};
ghost use Rattle.law_obligations.specs.May.{seen};
ghost use Rattle.smv_spots.specs.Spots.{outcome_in};

use crate::chances::{Chances, none};
use crate::conditions::Conditions;
use smv_core::seq::Seq;
use smv_spots::spots::Spot;
use std::alloc::{AllocError, Global};

/// An outcome, none where it is Undefined, and a condition under which it is possible.
#[derive(Clone, Copy)]
pub struct Offer<C> {
    pub outcome: Option<Spot>,
    pub when: C,
}

/// What an expression may be: truth values, or any outcomes.
#[derive(Drop)]
pub enum May<C> {
    Truths(Chances<C>),
    Values(Seq<Offer<C>>),
}

/// One outcome alone, which is always possible.
#[tactic(auto, unfolding(crate::specs::Offers::Offers, crate::specs::Offers::any_may, crate::specs::Offers::any_offer))]
pub fn single<S: Conditions>(
    s: &S,
    alloc: Global,
    outcome: Option<Spot>,
) -> Result<May<S::Condition>, AllocError>
    ensures made { IfOk result (λ m. IsMayMade (S.IsMade s.now) m) }
    ensures offers { IfOk result (λ m. (n : Numbered) (a : ℕ → Bool) → Offers n S.holds s.now a m (outcome_in n outcome ∷ [])) }
{
    let mut offers = Seq::new(alloc);
    let when = s.constant(true);
    offers.push(Offer { outcome, when })?;
    Ok(May::Values(offers))
}

// An outcome as a condition.
fn seen_as(outcome: Option<Spot>) -> Option<bool>
    ensures { (n : Numbered) → result ≡ seen (outcome_in n outcome) }
{
    match outcome {
        Some(Spot::Number { value: 0 }) => Some(false),
        Some(Spot::Number { value: 1 }) => Some(true),
        _ => None,
    }
}

/// One more truth value, under a condition.
#[tactic(auto, unfolding(crate::specs::Chances::mix_at, crate::specs::Offers::with_truth))]
pub fn with_chance<S: Conditions>(
    s: &mut S,
    alloc: Global,
    truth: Option<bool>,
    when: S::Condition,
    x: Chances<S::Condition>,
) -> Result<Chances<S::Condition>, AllocError>
    requires when_made { S.IsMade s.old when }
    requires made { AreMade (S.IsMade s.old) x }
    ensures keeps { KeepsConditions S.IsMade S.holds S.room s.old s.new }
    ensures made { IfOk result (λ z. AreMade (S.IsMade s.new) z) }
    ensures mix { IfOk result (λ z. (a : ℕ → Bool) → mix_at S.holds s.new a z ≡ with_truth (S.holds s.old when a) truth (mix_at S.holds s.old a x)) }
{
    let mut x = x;
    match truth {
        Some(false) => x.no = s.either(alloc, when, x.no)?,
        Some(true) => x.yes = s.either(alloc, when, x.yes)?,
        None => x.neither = s.either(alloc, when, x.neither)?,
    }
    Ok(x)
}

// The truth values among these.
#[tactic(auto, unfolding(crate::specs::Chances::mix_at, crate::specs::Offers::offers_mix, crate::specs::Offers::any_offer))]
fn truths_among<S: Conditions>(
    s: &mut S,
    alloc: Global,
    offers: &[Offer<S::Condition>],
) -> Result<Chances<S::Condition>, AllocError>
    requires made { AreOffersMade (S.IsMade s.old) offers.now }
    ensures keeps { KeepsConditions S.IsMade S.holds S.room s.old s.new }
    ensures made { IfOk result (λ z. AreMade (S.IsMade s.new) z) }
    ensures mix { IfOk result (λ z. (n : Numbered) (a : ℕ → Bool) → mix_at S.holds s.new a z ≡ offers_mix n S.holds s.old a offers.now) }
{
    let Some((offer, others)) = offers.split_first() else {
        return Ok(none(s));
    };
    let x = truths_among(s, alloc, others)?;
    let truth = seen_as(offer.outcome);
    let z = with_chance(s, alloc, truth, offer.when, x)?;
    Ok(z)
}

/// The truth values that are possible.
#[tactic(auto, unfolding(crate::specs::Offers::may_mix))]
pub fn truths_of<S: Conditions>(
    s: &mut S,
    alloc: Global,
    m: &May<S::Condition>,
) -> Result<Chances<S::Condition>, AllocError>
    requires made { IsMayMade (S.IsMade s.old) m.now }
    ensures keeps { KeepsConditions S.IsMade S.holds S.room s.old s.new }
    ensures made { IfOk result (λ z. AreMade (S.IsMade s.new) z) }
    ensures mix { IfOk result (λ z. (n : Numbered) (a : ℕ → Bool) → mix_at S.holds s.new a z ≡ may_mix n S.holds s.old a m.now) }
{
    match m {
        May::Truths(x) => Ok(*x),
        May::Values(offers) => {
            let z = truths_among(s, alloc, offers.as_slice())?;
            Ok(z)
        }
    }
}

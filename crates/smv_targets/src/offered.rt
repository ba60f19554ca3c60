// What outcomes with conditions give a target.
ghost use Rattle.std.specs.Prelude.{◌≡◌, ℕ, Bool, true, IfOk};
ghost use Rattle.std.specs.List.{list_any};
ghost use Rattle.smv_core.specs.FlatMeaning.{Numbered};
ghost use Rattle.law_obligations.specs.Places.{World};
ghost use Rattle.law_obligations.specs.Right.{same_outcome};
ghost use Rattle.smv_spots.specs.Spots.{outcome_in};
ghost use Rattle.smv_problem_spots.specs.Worlds.{IsWorldOf};
ghost use Rattle.smv_conditions.specs.Keep.{KeepsConditions};
ghost use Rattle.smv_conditions.specs.Offers.{AreOffersMade, any_offer};
ghost use Rattle.smv_targets.specs.Targets.{IsTargetMade};
ghost use Rattle.smv_targets.specs.Offered.{given_test, differs_from, two_differ};

use crate::targets::{Sense, Target, given};
use smv_conditions::conditions::Conditions;
use smv_conditions::offers::Offer;
use smv_problem::Problem;
use smv_problem_spots::same::is_same;
use smv_spots::spots::Spot;
use std::alloc::{AllocError, Global};

/// Two outcomes are the same.
fn is_same_outcome(problem: &Problem, u: Option<Spot>, v: Option<Spot>) -> bool
    ensures { (w : World) → IsWorldOf problem.entry.now w → result ≡ same_outcome (outcome_in w.classes u) (outcome_in w.classes v) }
{
    match u {
        Some(p) => match v {
            Some(q) => is_same(problem, p, q),
            None => false,
        },
        None => v.is_none(),
    }
}

/// Some outcome is possible that gives the value in this sense.
pub fn some_given<S: Conditions>(
    s: &mut S,
    alloc: Global,
    problem: &Problem,
    target: &Target<S::Condition>,
    sense: Sense,
    offers: &[Offer<S::Condition>],
) -> Result<S::Condition, AllocError>
    requires target_made { IsTargetMade (S.IsMade s.old) target.now }
    requires offers_made { AreOffersMade (S.IsMade s.old) offers.now }
    ensures keeps { KeepsConditions S.IsMade S.holds S.room s.old s.new }
    ensures made { IfOk result (λ r. S.IsMade s.new r) }
    ensures target { IfOk result (λ r. IsTargetMade (S.IsMade s.new) target.now) }
    ensures holds { IfOk result (λ r. (w : World) → IsWorldOf problem.entry.now w → (a : ℕ → Bool) → S.holds s.new r a ≡ any_offer w.classes S.holds s.old a (given_test S.holds s.old a w.classes target.now sense) offers.now) }
{
    let Some((offer, others)) = offers.split_first() else {
        return Ok(s.constant(false));
    };
    let more = some_given(s, alloc, problem, target, sense, others)?;
    let gives = given(problem, target, sense, offer.outcome);
    let here = s.both(alloc, offer.when, gives)?;
    let r = s.either(alloc, here, more)?;
    Ok(r)
}

/// Some outcome is possible.
pub fn some_offered<S: Conditions>(
    s: &mut S,
    alloc: Global,
    offers: &[Offer<S::Condition>],
) -> Result<S::Condition, AllocError>
    requires offers_made { AreOffersMade (S.IsMade s.old) offers.now }
    ensures keeps { KeepsConditions S.IsMade S.holds S.room s.old s.new }
    ensures made { IfOk result (λ r. S.IsMade s.new r) }
    ensures holds { IfOk result (λ r. (n : Numbered) (a : ℕ → Bool) → S.holds s.new r a ≡ any_offer n S.holds s.old a (λ u. true) offers.now) }
{
    let Some((offer, others)) = offers.split_first() else {
        return Ok(s.constant(false));
    };
    let more = some_offered(s, alloc, others)?;
    let r = s.either(alloc, offer.when, more)?;
    Ok(r)
}

// Some outcome that is possible is not this one.
fn some_other<S: Conditions>(
    s: &mut S,
    alloc: Global,
    problem: &Problem,
    outcome: Option<Spot>,
    offers: &[Offer<S::Condition>],
) -> Result<S::Condition, AllocError>
    requires offers_made { AreOffersMade (S.IsMade s.old) offers.now }
    ensures keeps { KeepsConditions S.IsMade S.holds S.room s.old s.new }
    ensures made { IfOk result (λ r. S.IsMade s.new r) }
    ensures holds { IfOk result (λ r. (w : World) → IsWorldOf problem.entry.now w → (a : ℕ → Bool) → S.holds s.new r a ≡ any_offer w.classes S.holds s.old a (differs_from (outcome_in w.classes outcome)) offers.now) }
{
    let Some((offer, others)) = offers.split_first() else {
        return Ok(s.constant(false));
    };
    let more = some_other(s, alloc, problem, outcome, others)?;
    if is_same_outcome(problem, outcome, offer.outcome) {
        return Ok(more);
    }
    let r = s.either(alloc, offer.when, more)?;
    Ok(r)
}

// One of these outcomes is the same.
fn is_offered<C: Copy>(problem: &Problem, outcome: Option<Spot>, offers: &[Offer<C>]) -> bool
    ensures { (w : World) → IsWorldOf problem.entry.now w → result ≡ list_any (λ o. same_outcome (outcome_in w.classes outcome) (outcome_in w.classes o.outcome)) offers.now }
{
    let Some((offer, others)) = offers.split_first() else {
        return false;
    };
    is_same_outcome(problem, outcome, offer.outcome) || is_offered(problem, outcome, others)
}

/// That some outcome is possible, and that two are that are not the same.
#[derive(Clone, Copy)]
pub struct Several<C> {
    pub some: C,
    pub two: C,
}

// Some outcome that is possible is not this one, where it is known that some is possible.
fn other_of<S: Conditions>(
    s: &mut S,
    alloc: Global,
    problem: &Problem,
    outcome: Option<Spot>,
    offers: &[Offer<S::Condition>],
    some: S::Condition,
) -> Result<S::Condition, AllocError>
    requires offers_made { AreOffersMade (S.IsMade s.old) offers.now }
    requires some_made { S.IsMade s.old some }
    requires some_is { (n : Numbered) (a : ℕ → Bool) → S.holds s.old some a ≡ any_offer n S.holds s.old a (λ u. true) offers.now }
    ensures keeps { KeepsConditions S.IsMade S.holds S.room s.old s.new }
    ensures made { IfOk result (λ r. S.IsMade s.new r) }
    ensures holds { IfOk result (λ r. (w : World) → IsWorldOf problem.entry.now w → (a : ℕ → Bool) → S.holds s.new r a ≡ any_offer w.classes S.holds s.old a (differs_from (outcome_in w.classes outcome)) offers.now) }
{
    if !is_offered(problem, outcome, offers) {
        return Ok(some);
    }
    let r = some_other(s, alloc, problem, outcome, offers)?;
    Ok(r)
}

/// How many of these outcomes are possible: some, and two that are not the same.
pub fn several_of<S: Conditions>(
    s: &mut S,
    alloc: Global,
    problem: &Problem,
    offers: &[Offer<S::Condition>],
) -> Result<Several<S::Condition>, AllocError>
    requires offers_made { AreOffersMade (S.IsMade s.old) offers.now }
    ensures keeps { KeepsConditions S.IsMade S.holds S.room s.old s.new }
    ensures some_made { IfOk result (λ r. S.IsMade s.new r.some) }
    ensures two_made { IfOk result (λ r. S.IsMade s.new r.two) }
    ensures some { IfOk result (λ r. (n : Numbered) (a : ℕ → Bool) → S.holds s.new r.some a ≡ any_offer n S.holds s.old a (λ u. true) offers.now) }
    ensures two { IfOk result (λ r. (w : World) → IsWorldOf problem.entry.now w → (a : ℕ → Bool) → S.holds s.new r.two a ≡ two_differ w.classes S.holds s.old a offers.now) }
{
    let Some((offer, others)) = offers.split_first() else {
        let never = s.constant(false);
        return Ok(Several {
            some: never,
            two: never,
        });
    };
    let rest = several_of(s, alloc, problem, others)?;
    let other = other_of(s, alloc, problem, offer.outcome, others, rest.some)?;
    let here = s.both(alloc, offer.when, other)?;
    let two = s.either(alloc, here, rest.two)?;
    let some = s.either(alloc, offer.when, rest.some)?;
    Ok(Several { some, two })
}

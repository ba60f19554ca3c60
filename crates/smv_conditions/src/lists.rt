// Lists of outcomes that grow, each outcome under a further condition.
ghost use Rattle.std.specs.Prelude.{◌≡◌, ℕ, Bool, ◌&&◌, OnOk, IfOk, IfSome, slice_get};
ghost use Rattle.smv_core.specs.FlatMeaning.{Numbered};
ghost use Rattle.law_obligations.specs.Places.{AbsOutcome};
ghost use Rattle.smv_spots.specs.Spots.{outcome_in};
ghost use Rattle.smv_conditions.specs.Keep.{KeepsConditions};
ghost use Rattle.smv_conditions.specs.Offers.{AreOffersMade, IsMayMade, any_offer, any_may};
ghost use Rattle.smv_conditions.specs.Adds.{Adds, listed_of};

use crate::chances::Chances;
use crate::conditions::Conditions;
use crate::offers::{May, Offer};
use smv_spots::spots::{Spot, is_outcome};
use std::alloc::{AllocError, Global};

// A place in a list, and the condition there.
#[derive(Clone, Copy)]
struct Found<C> {
    place: usize,
    when: C,
}

// Where an outcome is in a list.
fn position<C: Copy>(out: &[Offer<C>], outcome: Option<Spot>) -> Option<Found<C>>
    ensures { IfSome result (λ found. slice_get out.now found.place ≡ Some (record { outcome = outcome; when = found.when })) }
{
    for i in 0..out.len() {
        if is_outcome(out[i].outcome, outcome) {
            return Some(Found {
                place: i,
                when: out[i].when,
            });
        }
    }
    None
}

// One outcome more, which joins an equal one.
fn merge<S: Conditions>(
    s: &mut S,
    alloc: Global,
    out: &mut Vec<Offer<S::Condition>>,
    outcome: Option<Spot>,
    when: S::Condition,
) -> Result<(), AllocError>
    requires out_made { AreOffersMade (S.IsMade s.old) out.old.items }
    requires when_made { S.IsMade s.old when }
    ensures keeps { KeepsConditions S.IsMade S.holds S.room s.old s.new }
    ensures made { OnOk result (AreOffersMade (S.IsMade s.new) out.new.items) }
    ensures adds { OnOk result ((n : Numbered) (p : AbsOutcome → Bool) (a : ℕ → Bool) → Adds n S.holds s.old s.new a p out.old.items out.new.items (S.holds s.old when a) (p (outcome_in n outcome))) }
{
    let Some(found) = position(out.as_slice(), outcome) else {
        out.push(Offer { outcome, when })?;
        return Ok(());
    };
    let joined = s.either(alloc, found.when, when)?;
    out[found.place] = Offer {
        outcome,
        when: joined,
    };
    Ok(())
}

/// One outcome more, under both conditions.
pub fn add_offer<S: Conditions>(
    s: &mut S,
    alloc: Global,
    out: &mut Vec<Offer<S::Condition>>,
    when: S::Condition,
    outcome: Option<Spot>,
    also: S::Condition,
) -> Result<(), AllocError>
    requires out_made { AreOffersMade (S.IsMade s.old) out.old.items }
    requires when_made { S.IsMade s.old when }
    requires also_made { S.IsMade s.old also }
    ensures keeps { KeepsConditions S.IsMade S.holds S.room s.old s.new }
    ensures made { OnOk result (AreOffersMade (S.IsMade s.new) out.new.items) }
    ensures adds { OnOk result ((n : Numbered) (p : AbsOutcome → Bool) (a : ℕ → Bool) → Adds n S.holds s.old s.new a p out.old.items out.new.items (S.holds s.old when a) (S.holds s.old also a && p (outcome_in n outcome))) }
{
    let both = s.both(alloc, when, also)?;
    merge(s, alloc, out, outcome, both)?;
    Ok(())
}

/// These outcomes, each under the condition too.
#[tactic(auto, using(crate::proofs::AddLaws::rest_kept))]
pub fn add_all<S: Conditions>(
    s: &mut S,
    alloc: Global,
    out: &mut Vec<Offer<S::Condition>>,
    when: S::Condition,
    offers: &[Offer<S::Condition>],
) -> Result<(), AllocError>
    requires out_made { AreOffersMade (S.IsMade s.old) out.old.items }
    requires when_made { S.IsMade s.old when }
    requires offers_made { AreOffersMade (S.IsMade s.old) offers.now }
    ensures keeps { KeepsConditions S.IsMade S.holds S.room s.old s.new }
    ensures made { OnOk result (AreOffersMade (S.IsMade s.new) out.new.items) }
    ensures adds { OnOk result ((n : Numbered) (p : AbsOutcome → Bool) (a : ℕ → Bool) → Adds n S.holds s.old s.new a p out.old.items out.new.items (S.holds s.old when a) (any_offer n S.holds s.old a p offers.now)) }
{
    let Some((offer, others)) = offers.split_first() else {
        return Ok(());
    };
    add_offer(s, alloc, out, when, offer.outcome, offer.when)?;
    add_all(s, alloc, out, when, others)?;
    Ok(())
}

// Truth values as outcomes.
fn listed<S: Conditions>(
    alloc: Global,
    x: &Chances<S::Condition>,
) -> Result<Vec<Offer<S::Condition>>, AllocError>
    ensures { IfOk result (λ offers. offers.items ≡ listed_of x.now) }
{
    let mut offers = Vec::new(alloc);
    offers.push(Offer {
        outcome: Some(Spot::Number { value: 0 }),
        when: x.no,
    })?;
    offers.push(Offer {
        outcome: Some(Spot::Number { value: 1 }),
        when: x.yes,
    })?;
    offers.push(Offer {
        outcome: None,
        when: x.neither,
    })?;
    Ok(offers)
}

// What an expression may be, under the condition too.
#[tactic(auto, using(crate::proofs::AddLaws::truths_made, crate::proofs::AddLaws::values_made))]
pub fn add_may<S: Conditions>(
    s: &mut S,
    alloc: Global,
    out: &mut Vec<Offer<S::Condition>>,
    when: S::Condition,
    m: &May<S::Condition>,
) -> Result<(), AllocError>
    requires out_made { AreOffersMade (S.IsMade s.old) out.old.items }
    requires when_made { S.IsMade s.old when }
    requires made { IsMayMade (S.IsMade s.old) m.now }
    ensures keeps { KeepsConditions S.IsMade S.holds S.room s.old s.new }
    ensures made { OnOk result (AreOffersMade (S.IsMade s.new) out.new.items) }
    ensures adds { OnOk result ((n : Numbered) (p : AbsOutcome → Bool) (a : ℕ → Bool) → Adds n S.holds s.old s.new a p out.old.items out.new.items (S.holds s.old when a) (any_may n S.holds s.old a p m.now)) }
{
    match m {
        May::Truths(x) => {
            let offers = listed::<S>(alloc, x)?;
            add_all(s, alloc, out, when, offers.as_slice())?;
            Ok(())
        }
        May::Values(offers) => {
            add_all(s, alloc, out, when, offers.as_slice())?;
            Ok(())
        }
    }
}

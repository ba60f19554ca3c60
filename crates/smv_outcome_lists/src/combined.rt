// What operators make of what their parts may be.
ghost use Rattle.std.specs.Prelude.{◌≡◌, ℕ, Bool, IfOk, map};
ghost use Rattle.smv_core.specs.FlatMeaning.{Numbered};
ghost use Rattle.law_obligations.specs.Places.{AbsOutcome};
ghost use Rattle.smv_conditions.specs.Keep.{KeepsConditions};
ghost use Rattle.law_obligations.specs.Mix.{iff_mix};
ghost use Rattle.smv_conditions.specs.Chances.{AreMade, mix_at};
ghost use Rattle.smv_conditions.specs.Chain.{AllMade};
ghost use Rattle.smv_conditions.specs.Offers.{AreOffersMade, IsMayMade, any_offer, any_may};
ghost use Rattle.law_obligations.specs.Combined.{union_mix, unions, branch_any};

use smv_conditions::chances::{Chances, none};
use smv_conditions::conditions::Conditions;
use smv_conditions::lists::{add_all, add_may, add_offer};
use smv_conditions::offers::{May, Offer};
use smv_core::seq::Seq;
use std::alloc::{AllocError, Global};

/// `<->`.
#[tactic(auto, unfolding(smv_conditions::specs::Chances::mix_at))]
pub fn matched<S: Conditions>(
    s: &mut S,
    alloc: Global,
    x: Chances<S::Condition>,
    y: Chances<S::Condition>,
) -> Result<Chances<S::Condition>, AllocError>
    requires x_made { AreMade (S.IsMade s.old) x }
    requires y_made { AreMade (S.IsMade s.old) y }
    ensures keeps { KeepsConditions S.IsMade S.holds S.room s.old s.new }
    ensures made { IfOk result (λ z. AreMade (S.IsMade s.new) z) }
    ensures mix { IfOk result (λ z. (a : ℕ → Bool) → mix_at S.holds s.new a z ≡ iff_mix (mix_at S.holds s.old a x) (mix_at S.holds s.old a y)) }
{
    let no = s.both(alloc, x.no, y.yes)?;
    let other = s.both(alloc, x.yes, y.no)?;
    let no = s.either(alloc, no, other)?;
    let yes = s.both(alloc, x.no, y.no)?;
    let other = s.both(alloc, x.yes, y.yes)?;
    let yes = s.either(alloc, yes, other)?;
    let neither = s.either(alloc, x.neither, y.neither)?;
    Ok(Chances { no, yes, neither })
}

/// What either may be.
#[tactic(auto, unfolding(smv_conditions::specs::Chances::mix_at))]
pub(crate) fn united<S: Conditions>(
    s: &mut S,
    alloc: Global,
    x: Chances<S::Condition>,
    y: Chances<S::Condition>,
) -> Result<Chances<S::Condition>, AllocError>
    requires x_made { AreMade (S.IsMade s.old) x }
    requires y_made { AreMade (S.IsMade s.old) y }
    ensures keeps { KeepsConditions S.IsMade S.holds S.room s.old s.new }
    ensures made { IfOk result (λ z. AreMade (S.IsMade s.new) z) }
    ensures mix { IfOk result (λ z. (a : ℕ → Bool) → mix_at S.holds s.new a z ≡ union_mix (mix_at S.holds s.old a x) (mix_at S.holds s.old a y)) }
{
    let no = s.either(alloc, x.no, y.no)?;
    let yes = s.either(alloc, x.yes, y.yes)?;
    let neither = s.either(alloc, x.neither, y.neither)?;
    Ok(Chances { no, yes, neither })
}

/// What one of these may be.
pub(crate) fn union_of<S: Conditions>(
    s: &mut S,
    alloc: Global,
    each: &[Chances<S::Condition>],
) -> Result<Chances<S::Condition>, AllocError>
    requires made { AllMade (S.IsMade s.old) each.now }
    ensures keeps { KeepsConditions S.IsMade S.holds S.room s.old s.new }
    ensures made { IfOk result (λ z. AreMade (S.IsMade s.new) z) }
    ensures mix { IfOk result (λ z. (a : ℕ → Bool) → mix_at S.holds s.new a z ≡ unions (map (mix_at S.holds s.old a) each.now)) }
{
    let Some((first, others)) = each.split_first() else {
        return Ok(none(s));
    };
    let y = union_of(s, alloc, others)?;
    let z = united(s, alloc, *first, y)?;
    Ok(z)
}

/// The outcomes of a May, each once.
pub fn offers_of<S: Conditions>(
    s: &mut S,
    alloc: Global,
    m: &May<S::Condition>,
) -> Result<Vec<Offer<S::Condition>>, AllocError>
    requires made { IsMayMade (S.IsMade s.old) m.now }
    ensures keeps { KeepsConditions S.IsMade S.holds S.room s.old s.new }
    ensures made { IfOk result (λ offers. AreOffersMade (S.IsMade s.new) offers.items) }
    ensures same { IfOk result (λ offers. (n : Numbered) (p : AbsOutcome → Bool) (a : ℕ → Bool) → any_offer n S.holds s.new a p offers.items ≡ any_may n S.holds s.old a p m.now) }
{
    let mut offers = Vec::new(alloc);
    let always = s.constant(true);
    add_may(s, alloc, &mut offers, always, m)?;
    Ok(offers)
}

/// The outcomes of a conditional.
#[tactic(auto, using(smv_conditions::proofs::AddLaws::offers_kept))]
pub fn chosen<S: Conditions>(
    s: &mut S,
    alloc: Global,
    x: Chances<S::Condition>,
    yes: &[Offer<S::Condition>],
    no: &[Offer<S::Condition>],
) -> Result<Vec<Offer<S::Condition>>, AllocError>
    requires x_made { AreMade (S.IsMade s.old) x }
    requires yes_made { AreOffersMade (S.IsMade s.old) yes.now }
    requires no_made { AreOffersMade (S.IsMade s.old) no.now }
    ensures keeps { KeepsConditions S.IsMade S.holds S.room s.old s.new }
    ensures made { IfOk result (λ offers. AreOffersMade (S.IsMade s.new) offers.items) }
    ensures any { IfOk result (λ offers. (n : Numbered) (p : AbsOutcome → Bool) (a : ℕ → Bool) → any_offer n S.holds s.new a p offers.items ≡ branch_any (mix_at S.holds s.old a x) (any_offer n S.holds s.old a p yes.now) (any_offer n S.holds s.old a p no.now) (p None)) }
{
    let mut offers = Vec::new(alloc);
    let always = s.constant(true);
    add_offer(s, alloc, &mut offers, x.neither, None, always)?;
    add_all(s, alloc, &mut offers, x.yes, yes)?;
    add_all(s, alloc, &mut offers, x.no, no)?;
    Ok(offers)
}

/// A list as a May.
pub fn valued<C>(offers: Vec<Offer<C>>) -> May<C>
    ensures { result ≡ May.Values offers.items }
{
    May::Values(Seq::from_vec(offers))
}

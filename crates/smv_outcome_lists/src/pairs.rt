// Operators on each two outcomes of two lists.
ghost use Rattle.std.specs.Prelude.{◌≡◌, ℕ, Bool, ◌&&◌, ◌||◌, IfOk, OnOk};
ghost use Rattle.smv_core.specs.FlatMeaning.{Numbered};
ghost use Rattle.smv_core.specs.Values.{add, modulo};
ghost use Rattle.law_obligations.specs.Places.{World, AbsOutcome, valued, as_place};
ghost use Rattle.smv_spots.specs.Spots.{outcome_in};
ghost use Rattle.smv_problem_spots.specs.Worlds.{IsWorldOf};
ghost use Rattle.smv_conditions.specs.Keep.{KeepsConditions};
ghost use Rattle.smv_conditions.specs.Chances.{AreMade, mix_at};
ghost use Rattle.smv_conditions.specs.Offers.{AreOffersMade, any_offer};
ghost use Rattle.smv_conditions.specs.Adds.{Adds};
ghost use Rattle.smv_outcome_lists.specs.Pairs.{with_answers, guard_mix, compare_mix, compare_each};

use smv_conditions::chances::{Chances, none};
use smv_conditions::conditions::Conditions;
use smv_conditions::lists::add_offer;
use smv_conditions::offers::Offer;
use smv_core::tree::Op;
use smv_problem::Problem;
use smv_problem_spots::answers::compared;
use smv_spots::answers::Answers;
use smv_spots::arithmetic::{added, remainder};
use smv_spots::spots::Spot;
use std::alloc::{AllocError, Global};

// One condition more, if the answer is there.
fn where_so<S: Conditions>(
    s: &mut S,
    alloc: Global,
    so: bool,
    when: S::Condition,
    c: S::Condition,
) -> Result<S::Condition, AllocError>
    requires when_made { S.IsMade s.old when }
    requires c_made { S.IsMade s.old c }
    ensures keeps { KeepsConditions S.IsMade S.holds S.room s.old s.new }
    ensures made { IfOk result (λ d. S.IsMade s.new d) }
    ensures holds { IfOk result (λ d. (a : ℕ → Bool) → S.holds s.new d a ≡ ((S.holds s.old when a && so) || S.holds s.old c a)) }
{
    if so {
        let d = s.either(alloc, when, c)?;
        Ok(d)
    } else {
        Ok(c)
    }
}

// The answers of one comparison, under a condition.
#[tactic(auto, unfolding(smv_conditions::specs::Chances::mix_at))]
fn answered<S: Conditions>(
    s: &mut S,
    alloc: Global,
    answers: Answers,
    when: S::Condition,
    x: Chances<S::Condition>,
) -> Result<Chances<S::Condition>, AllocError>
    requires when_made { S.IsMade s.old when }
    requires made { AreMade (S.IsMade s.old) x }
    ensures keeps { KeepsConditions S.IsMade S.holds S.room s.old s.new }
    ensures made { IfOk result (λ z. AreMade (S.IsMade s.new) z) }
    ensures mix { IfOk result (λ z. (a : ℕ → Bool) → mix_at S.holds s.new a z ≡ with_answers (S.holds s.old when a) answers (mix_at S.holds s.old a x)) }
{
    let no = where_so(s, alloc, answers.no, when, x.no)?;
    let yes = where_so(s, alloc, answers.yes, when, x.yes)?;
    let neither = where_so(s, alloc, answers.neither, when, x.neither)?;
    Ok(Chances { no, yes, neither })
}

/// What an outcome gives against each of a list.
pub(crate) fn compared_each<S: Conditions>(
    s: &mut S,
    alloc: Global,
    problem: &Problem,
    op: Op,
    u: Option<Spot>,
    vs: &[Offer<S::Condition>],
) -> Result<Chances<S::Condition>, AllocError>
    requires made { AreOffersMade (S.IsMade s.old) vs.now }
    ensures keeps { KeepsConditions S.IsMade S.holds S.room s.old s.new }
    ensures made { IfOk result (λ z. AreMade (S.IsMade s.new) z) }
    ensures mix { IfOk result (λ z. (w : World) → IsWorldOf problem.entry.now w → (a : ℕ → Bool) → mix_at S.holds s.new a z ≡ compare_each w.classes S.holds s.old a op (outcome_in w.classes u) vs.now) }
{
    let Some((v, others)) = vs.split_first() else {
        return Ok(none(s));
    };
    let x = compared_each(s, alloc, problem, op, u, others)?;
    let answers = compared(problem, op, u, v.outcome);
    let z = answered(s, alloc, answers, v.when, x)?;
    Ok(z)
}

/// Truth values beside others, under a condition.
#[tactic(auto, unfolding(smv_conditions::specs::Chances::mix_at))]
pub(crate) fn guarded<S: Conditions>(
    s: &mut S,
    alloc: Global,
    when: S::Condition,
    y: Chances<S::Condition>,
    x: Chances<S::Condition>,
) -> Result<Chances<S::Condition>, AllocError>
    requires when_made { S.IsMade s.old when }
    requires y_made { AreMade (S.IsMade s.old) y }
    requires x_made { AreMade (S.IsMade s.old) x }
    ensures keeps { KeepsConditions S.IsMade S.holds S.room s.old s.new }
    ensures made { IfOk result (λ z. AreMade (S.IsMade s.new) z) }
    ensures mix { IfOk result (λ z. (a : ℕ → Bool) → mix_at S.holds s.new a z ≡ guard_mix (S.holds s.old when a) (mix_at S.holds s.old a y) (mix_at S.holds s.old a x)) }
{
    let no = s.both(alloc, when, y.no)?;
    let no = s.either(alloc, no, x.no)?;
    let yes = s.both(alloc, when, y.yes)?;
    let yes = s.either(alloc, yes, x.yes)?;
    let neither = s.both(alloc, when, y.neither)?;
    let neither = s.either(alloc, neither, x.neither)?;
    Ok(Chances { no, yes, neither })
}

/// A comparison.
#[tactic(auto, using(smv_conditions::proofs::AddLaws::rest_kept, smv_conditions::proofs::AddLaws::offers_kept))]
pub(crate) fn compared_all<S: Conditions>(
    s: &mut S,
    alloc: Global,
    problem: &Problem,
    op: Op,
    us: &[Offer<S::Condition>],
    vs: &[Offer<S::Condition>],
) -> Result<Chances<S::Condition>, AllocError>
    requires us_made { AreOffersMade (S.IsMade s.old) us.now }
    requires vs_made { AreOffersMade (S.IsMade s.old) vs.now }
    ensures keeps { KeepsConditions S.IsMade S.holds S.room s.old s.new }
    ensures made { IfOk result (λ z. AreMade (S.IsMade s.new) z) }
    ensures mix { IfOk result (λ z. (w : World) → IsWorldOf problem.entry.now w → (a : ℕ → Bool) → mix_at S.holds s.new a z ≡ compare_mix w.classes S.holds s.old a op us.now vs.now) }
{
    let Some((u, others)) = us.split_first() else {
        return Ok(none(s));
    };
    let x = compared_all(s, alloc, problem, op, others, vs)?;
    let y = compared_each(s, alloc, problem, op, u.outcome, vs)?;
    let z = guarded(s, alloc, u.when, y, x)?;
    Ok(z)
}

// An outcome with each of a list, added up.
#[tactic(auto, using(smv_conditions::proofs::AddLaws::rest_kept, smv_conditions::proofs::AddLaws::offers_kept))]
fn added_each<S: Conditions>(
    s: &mut S,
    alloc: Global,
    out: &mut Vec<Offer<S::Condition>>,
    when: S::Condition,
    minus: bool,
    u: Option<Spot>,
    vs: &[Offer<S::Condition>],
) -> Result<(), AllocError>
    requires out_made { AreOffersMade (S.IsMade s.old) out.old.items }
    requires when_made { S.IsMade s.old when }
    requires made { AreOffersMade (S.IsMade s.old) vs.now }
    ensures keeps { KeepsConditions S.IsMade S.holds S.room s.old s.new }
    ensures made { OnOk result (AreOffersMade (S.IsMade s.new) out.new.items) }
    ensures adds { OnOk result ((n : Numbered) (p : AbsOutcome → Bool) (a : ℕ → Bool) → Adds n S.holds s.old s.new a p out.old.items out.new.items (S.holds s.old when a) (any_offer n S.holds s.old a (λ v. p (as_place (add minus (valued (outcome_in n u)) (valued v)))) vs.now)) }
{
    let Some((v, others)) = vs.split_first() else {
        return Ok(());
    };
    let sum = added(minus, u, v.outcome);
    add_offer(s, alloc, out, when, sum, v.when)?;
    added_each(s, alloc, out, when, minus, u, others)?;
    Ok(())
}

/// Sums or differences, behind other outcomes.
#[tactic(auto, using(smv_conditions::proofs::AddLaws::rest_kept, smv_conditions::proofs::AddLaws::offers_kept))]
fn added_all<S: Conditions>(
    s: &mut S,
    alloc: Global,
    out: &mut Vec<Offer<S::Condition>>,
    minus: bool,
    us: &[Offer<S::Condition>],
    vs: &[Offer<S::Condition>],
) -> Result<(), AllocError>
    requires out_made { AreOffersMade (S.IsMade s.old) out.old.items }
    requires us_made { AreOffersMade (S.IsMade s.old) us.now }
    requires vs_made { AreOffersMade (S.IsMade s.old) vs.now }
    ensures keeps { KeepsConditions S.IsMade S.holds S.room s.old s.new }
    ensures made { OnOk result (AreOffersMade (S.IsMade s.new) out.new.items) }
    ensures adds { OnOk result ((n : Numbered) (p : AbsOutcome → Bool) (a : ℕ → Bool) → any_offer n S.holds s.new a p out.new.items ≡ (any_offer n S.holds s.old a p out.old.items || any_offer n S.holds s.old a (λ u. any_offer n S.holds s.old a (λ v. p (as_place (add minus (valued u) (valued v)))) vs.now) us.now)) }
{
    let Some((u, others)) = us.split_first() else {
        return Ok(());
    };
    added_each(s, alloc, out, u.when, minus, u.outcome, vs)?;
    added_all(s, alloc, out, minus, others, vs)?;
    Ok(())
}

/// A sum or a difference.
pub fn added_of<S: Conditions>(
    s: &mut S,
    alloc: Global,
    minus: bool,
    us: &[Offer<S::Condition>],
    vs: &[Offer<S::Condition>],
) -> Result<Vec<Offer<S::Condition>>, AllocError>
    requires us_made { AreOffersMade (S.IsMade s.old) us.now }
    requires vs_made { AreOffersMade (S.IsMade s.old) vs.now }
    ensures keeps { KeepsConditions S.IsMade S.holds S.room s.old s.new }
    ensures made { IfOk result (λ out. AreOffersMade (S.IsMade s.new) out.items) }
    ensures any { IfOk result (λ out. (n : Numbered) (p : AbsOutcome → Bool) (a : ℕ → Bool) → any_offer n S.holds s.new a p out.items ≡ any_offer n S.holds s.old a (λ u. any_offer n S.holds s.old a (λ v. p (as_place (add minus (valued u) (valued v)))) vs.now) us.now) }
{
    let mut out = Vec::new(alloc);
    added_all(s, alloc, &mut out, minus, us, vs)?;
    Ok(out)
}

// The remainders, behind other outcomes.
#[tactic(auto, using(smv_conditions::proofs::AddLaws::rest_kept, smv_conditions::proofs::AddLaws::offers_kept))]
fn remainders<S: Conditions>(
    s: &mut S,
    alloc: Global,
    out: &mut Vec<Offer<S::Condition>>,
    us: &[Offer<S::Condition>],
    by: u16,
) -> Result<(), AllocError>
    requires out_made { AreOffersMade (S.IsMade s.old) out.old.items }
    requires us_made { AreOffersMade (S.IsMade s.old) us.now }
    ensures keeps { KeepsConditions S.IsMade S.holds S.room s.old s.new }
    ensures made { OnOk result (AreOffersMade (S.IsMade s.new) out.new.items) }
    ensures adds { OnOk result ((n : Numbered) (p : AbsOutcome → Bool) (a : ℕ → Bool) → any_offer n S.holds s.new a p out.new.items ≡ (any_offer n S.holds s.old a p out.old.items || any_offer n S.holds s.old a (λ u. p (as_place (modulo (valued u) by))) us.now)) }
{
    let Some((u, others)) = us.split_first() else {
        return Ok(());
    };
    let always = s.constant(true);
    let rest = remainder(u.outcome, by);
    add_offer(s, alloc, out, u.when, rest, always)?;
    remainders(s, alloc, out, others, by)?;
    Ok(())
}

/// The remainders.
pub fn remainders_of<S: Conditions>(
    s: &mut S,
    alloc: Global,
    us: &[Offer<S::Condition>],
    by: u16,
) -> Result<Vec<Offer<S::Condition>>, AllocError>
    requires us_made { AreOffersMade (S.IsMade s.old) us.now }
    ensures keeps { KeepsConditions S.IsMade S.holds S.room s.old s.new }
    ensures made { IfOk result (λ out. AreOffersMade (S.IsMade s.new) out.items) }
    ensures any { IfOk result (λ out. (n : Numbered) (p : AbsOutcome → Bool) (a : ℕ → Bool) → any_offer n S.holds s.new a p out.items ≡ any_offer n S.holds s.old a (λ u. p (as_place (modulo (valued u) by))) us.now) }
{
    let mut out = Vec::new(alloc);
    remainders(s, alloc, &mut out, us, by)?;
    Ok(out)
}

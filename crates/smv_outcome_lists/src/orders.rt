// Comparisons of long lists, part by part: what lies below a bound on one side has one answer with all that lies above it on the other.
ghost use Rattle.std.specs.Prelude.{◌≡◌, ℕ, Bool, ◌&&◌, IfOk, Some, None, length, nat_le};
ghost use Rattle.law_obligations.specs.Places.{World};
ghost use Rattle.smv_problem_spots.specs.Worlds.{IsWorldOf};
ghost use Rattle.smv_conditions.specs.Keep.{KeepsConditions};
ghost use Rattle.smv_conditions.specs.Chances.{AreMade, mix_at};
ghost use Rattle.smv_conditions.specs.Offers.{AreOffersMade};
ghost use Rattle.law_obligations.specs.Combined.{union_mix};
ghost use Rattle.smv_outcome_lists.specs.Pairs.{with_answers, compare_mix};
ghost use Rattle.smv_outcome_lists.specs.Orders.{has_key, AllSo, AreApartBy, possible};

use crate::combined::united;
use crate::keys::{Keys, apart, keys_among, parted};
use crate::pairs::{compared_all, guarded};
use smv_conditions::chances::{Chances, none};
use smv_conditions::conditions::Conditions;
use smv_conditions::offers::Offer;
use smv_core::tree::Op;
use smv_problem::Problem;
use smv_spots::answers::Answers;
use std::alloc::{AllocError, Global};

// Half of what most keys are below: numbers are, and names of most texts. Those above it are compared each with each.
const HALF: usize = 0x800;

// So few outcomes that each is compared with each.
fn is_few<C>(offers: &[Offer<C>]) -> bool
    ensures { result ≡ nat_le (length offers.now) 16 }
{
    offers.len() <= 16
}

// The answers of one comparison, under a condition, beside other truth values.
#[tactic(auto, unfolding(smv_conditions::specs::Chances::mix_at))]
fn answered<S: Conditions>(
    s: &mut S,
    alloc: Global,
    answers: Answers,
    when: S::Condition,
    x: Chances<S::Condition>,
) -> Result<Chances<S::Condition>, AllocError>
    requires when_made { S.IsMade s.old when }
    requires x_made { AreMade (S.IsMade s.old) x }
    ensures keeps { KeepsConditions S.IsMade S.holds S.room s.old s.new }
    ensures made { IfOk result (λ z. AreMade (S.IsMade s.new) z) }
    ensures mix { IfOk result (λ z. (a : ℕ → Bool) → mix_at S.holds s.new a z ≡ with_answers (S.holds s.old when a) answers (mix_at S.holds s.old a x)) }
{
    let y = Chances {
        no: s.constant(answers.no),
        yes: s.constant(answers.yes),
        neither: s.constant(answers.neither),
    };
    let z = guarded(s, alloc, when, y, x)?;
    Ok(z)
}

// Some of these is possible.
fn some_of<S: Conditions>(
    s: &mut S,
    alloc: Global,
    offers: &[Offer<S::Condition>],
) -> Result<S::Condition, AllocError>
    requires made { AreOffersMade (S.IsMade s.old) offers.now }
    ensures keeps { KeepsConditions S.IsMade S.holds S.room s.old s.new }
    ensures made { IfOk result (λ c. S.IsMade s.new c) }
    ensures holds { IfOk result (λ c. (a : ℕ → Bool) → S.holds s.new c a ≡ possible S.holds s.old a offers.now) }
{
    let Some((offer, others)) = offers.split_first() else {
        return Ok(s.constant(false));
    };
    let rest = some_of(s, alloc, others)?;
    let c = s.either(alloc, offer.when, rest)?;
    Ok(c)
}

// What one of these gives against one of those, whose keys lie on the two sides of a bound, beside other truth values.
fn crossed<S: Conditions>(
    s: &mut S,
    alloc: Global,
    problem: &Problem,
    op: Op,
    keys: Keys,
    bound: Option<usize>,
    below: bool,
    us: &[Offer<S::Condition>],
    vs: &[Offer<S::Condition>],
    x: Chances<S::Condition>,
) -> Result<Chances<S::Condition>, AllocError>
    requires us_made { AreOffersMade (S.IsMade s.old) us.now }
    requires vs_made { AreOffersMade (S.IsMade s.old) vs.now }
    requires x_made { AreMade (S.IsMade s.old) x }
    requires apart { AreApartBy problem.now keys bound below us.now vs.now }
    ensures keeps { KeepsConditions S.IsMade S.holds S.room s.old s.new }
    ensures made { IfOk result (λ z. AreMade (S.IsMade s.new) z) }
    ensures mix { IfOk result (λ z. (w : World) → IsWorldOf problem.entry.now w → (a : ℕ → Bool) → mix_at S.holds s.new a z ≡ union_mix (compare_mix w.classes S.holds s.old a op us.now vs.now) (mix_at S.holds s.old a x)) }
{
    let _ = problem;
    let _ = bound;
    let some_left = some_of(s, alloc, us)?;
    let some_right = some_of(s, alloc, vs)?;
    let when = s.both(alloc, some_left, some_right)?;
    let answers = apart(op, keys, below);
    let z = answered(s, alloc, answers, when, x)?;
    Ok(z)
}

// What each of these gives against each of those, beside other truth values.
fn paired<S: Conditions>(
    s: &mut S,
    alloc: Global,
    problem: &Problem,
    op: Op,
    us: &[Offer<S::Condition>],
    vs: &[Offer<S::Condition>],
    x: Chances<S::Condition>,
) -> Result<Chances<S::Condition>, AllocError>
    requires us_made { AreOffersMade (S.IsMade s.old) us.now }
    requires vs_made { AreOffersMade (S.IsMade s.old) vs.now }
    requires x_made { AreMade (S.IsMade s.old) x }
    ensures keeps { KeepsConditions S.IsMade S.holds S.room s.old s.new }
    ensures made { IfOk result (λ z. AreMade (S.IsMade s.new) z) }
    ensures mix { IfOk result (λ z. (w : World) → IsWorldOf problem.entry.now w → (a : ℕ → Bool) → mix_at S.holds s.new a z ≡ union_mix (compare_mix w.classes S.holds s.old a op us.now vs.now) (mix_at S.holds s.old a x)) }
{
    let y = compared_all(s, alloc, problem, op, us, vs)?;
    let z = united(s, alloc, y, x)?;
    Ok(z)
}

// The same, of outcomes that have keys: those below `from + half` and the others, each of the two parts by its halves again.
fn ordered<S: Conditions>(
    s: &mut S,
    alloc: Global,
    problem: &Problem,
    op: Op,
    keys: Keys,
    half: usize,
    from: usize,
    us: &[Offer<S::Condition>],
    vs: &[Offer<S::Condition>],
    x: Chances<S::Condition>,
) -> Result<Chances<S::Condition>, AllocError>
    requires us_made { AreOffersMade (S.IsMade s.old) us.now }
    requires vs_made { AreOffersMade (S.IsMade s.old) vs.now }
    requires x_made { AreMade (S.IsMade s.old) x }
    requires us_keyed { AllSo (has_key problem.now keys) us.now }
    requires vs_keyed { AllSo (has_key problem.now keys) vs.now }
    ensures keeps { KeepsConditions S.IsMade S.holds S.room s.old s.new }
    ensures made { IfOk result (λ z. AreMade (S.IsMade s.new) z) }
    ensures mix { IfOk result (λ z. (w : World) → IsWorldOf problem.entry.now w → (a : ℕ → Bool) → mix_at S.holds s.new a z ≡ union_mix (compare_mix w.classes S.holds s.old a op us.now vs.now) (mix_at S.holds s.old a x)) }
{
    if half == 0 || is_few(us) || is_few(vs) {
        let z = paired(s, alloc, problem, op, us, vs, x)?;
        return Ok(z);
    }
    let quarter = half / 2;
    let middle = from.saturating_add(half);
    let bound = Some(middle);
    let u = parted(alloc, problem, keys, bound, us)?;
    let v = parted(alloc, problem, keys, bound, vs)?;
    let left_low = u.low.as_slice();
    let left_high = u.high.as_slice();
    let right_low = v.low.as_slice();
    let right_high = v.high.as_slice();
    let lows = ordered(
        s, alloc, problem, op, keys, quarter, from, left_low, right_low, x,
    )?;
    let highs = ordered(
        s, alloc, problem, op, keys, quarter, middle, left_high, right_high, lows,
    )?;
    let below = crossed(
        s, alloc, problem, op, keys, bound, true, left_low, right_high, highs,
    )?;
    let whole = crossed(
        s, alloc, problem, op, keys, bound, false, left_high, right_low, below,
    )?;
    Ok(whole)
}

// A comparison of long lists: of the outcomes that have keys by these, and of each of the others with each one.
fn compared_parts<S: Conditions>(
    s: &mut S,
    alloc: Global,
    problem: &Problem,
    op: Op,
    us: &[Offer<S::Condition>],
    vs: &[Offer<S::Condition>],
) -> Result<Chances<S::Condition>, AllocError>
    requires us_made { AreOffersMade (S.IsMade s.old) us.now }
    requires vs_made { AreOffersMade (S.IsMade s.old) vs.now }
    ensures keeps { KeepsConditions S.IsMade S.holds S.room s.old s.new }
    ensures made { IfOk result (λ z. AreMade (S.IsMade s.new) z) }
    ensures mix { IfOk result (λ z. (w : World) → IsWorldOf problem.entry.now w → (a : ℕ → Bool) → mix_at S.holds s.new a z ≡ compare_mix w.classes S.holds s.old a op us.now vs.now) }
{
    let keys = keys_among(us);
    let u = parted(alloc, problem, keys, None, us)?;
    let v = parted(alloc, problem, keys, None, vs)?;
    let left_low = u.low.as_slice();
    let left_high = u.high.as_slice();
    let right_low = v.low.as_slice();
    let right_high = v.high.as_slice();
    let start = none(s);
    let lows = ordered(
        s, alloc, problem, op, keys, HALF, 0, left_low, right_low, start,
    )?;
    let highs = paired(s, alloc, problem, op, left_high, right_high, lows)?;
    let below = paired(s, alloc, problem, op, left_low, right_high, highs)?;
    let whole = paired(s, alloc, problem, op, left_high, right_low, below)?;
    Ok(whole)
}

/// A comparison. Of long lists the outcomes that have keys are compared part by part, and the others with each one.
pub fn compared_lists<S: Conditions>(
    s: &mut S,
    alloc: Global,
    problem: &Problem,
    op: Op,
    us: &[Offer<S::Condition>],
    vs: &[Offer<S::Condition>],
) -> Result<Chances<S::Condition>, AllocError>
    requires us_made { AreOffersMade (S.IsMade s.old) us.now }
    requires vs_made { AreOffersMade (S.IsMade s.old) vs.now }
    ensures keeps { KeepsConditions S.IsMade S.holds S.room s.old s.new }
    ensures made { IfOk result (λ z. AreMade (S.IsMade s.new) z) }
    ensures mix { IfOk result (λ z. (w : World) → IsWorldOf problem.entry.now w → (a : ℕ → Bool) → mix_at S.holds s.new a z ≡ compare_mix w.classes S.holds s.old a op us.now vs.now) }
{
    if is_few(us) || is_few(vs) {
        let z = compared_all(s, alloc, problem, op, us, vs)?;
        return Ok(z);
    }
    let z = compared_parts(s, alloc, problem, op, us, vs)?;
    Ok(z)
}

// The branches of a conditional that is certain.
ghost use Rattle.std.specs.Prelude.{◌≡◌, ℕ, Bool, IfOk, if◌then◌else◌};
ghost use Rattle.smv_conditions.specs.Keep.{KeepsConditions};
ghost use Rattle.smv_conditions.specs.Chances.{AreMade, mix_at};
ghost use Rattle.law_obligations.specs.RightSides.{surely_by};

use smv_conditions::chances::Chances;
use smv_conditions::conditions::Conditions;
use std::alloc::{AllocError, Global};

// One of two, by a condition.
fn one_by<S: Conditions>(
    s: &mut S,
    alloc: Global,
    c: S::Condition,
    yes: S::Condition,
    no: S::Condition,
) -> Result<S::Condition, AllocError>
    requires c_made { S.IsMade s.old c }
    requires yes_made { S.IsMade s.old yes }
    requires no_made { S.IsMade s.old no }
    ensures keeps { KeepsConditions S.IsMade S.holds S.room s.old s.new }
    ensures made { IfOk result (λ r. S.IsMade s.new r) }
    ensures holds { IfOk result (λ r. (a : ℕ → Bool) → S.holds s.new r a ≡ (if S.holds s.old c a then S.holds s.old yes a else S.holds s.old no a)) }
{
    let left = s.both(alloc, c, yes)?;
    let d = s.opposite(alloc, c)?;
    let right = s.both(alloc, d, no)?;
    let r = s.either(alloc, left, right)?;
    Ok(r)
}

/// By a condition: the branch where it is certain, always where it can only be neither 0 nor 1, and else what both branches share.
#[tactic(auto, unfolding(smv_conditions::specs::Chances::mix_at))]
pub(crate) fn surely_of<S: Conditions>(
    s: &mut S,
    alloc: Global,
    x: Chances<S::Condition>,
    yes: S::Condition,
    no: S::Condition,
) -> Result<S::Condition, AllocError>
    requires x_made { AreMade (S.IsMade s.old) x }
    requires yes_made { S.IsMade s.old yes }
    requires no_made { S.IsMade s.old no }
    ensures keeps { KeepsConditions S.IsMade S.holds S.room s.old s.new }
    ensures made { IfOk result (λ r. S.IsMade s.new r) }
    ensures holds { IfOk result (λ r. (a : ℕ → Bool) → S.holds s.new r a ≡ surely_by (mix_at S.holds s.old a x) (S.holds s.old yes a) (S.holds s.old no a)) }
{
    let always = s.constant(true);
    let shared = s.both(alloc, yes, no)?;
    let some = s.either(alloc, x.no, x.yes)?;
    let either_way = one_by(s, alloc, some, shared, always)?;
    let not_no = s.either(alloc, x.yes, x.neither)?;
    let open = one_by(s, alloc, not_no, either_way, no)?;
    let not_yes = s.either(alloc, x.no, x.neither)?;
    let r = one_by(s, alloc, not_yes, open, yes)?;
    Ok(r)
}

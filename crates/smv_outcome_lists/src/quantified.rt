// Quantifiers: what is at the numbers and classes, and any part of what is at the rests.
ghost use Rattle.std.specs.Prelude.{◌≡◌, ℕ, Bool, IfOk, map};
ghost use Rattle.smv_conditions.specs.Keep.{KeepsConditions};
ghost use Rattle.smv_conditions.specs.Chances.{AreMade, mix_at};
ghost use Rattle.smv_conditions.specs.Chain.{AllMade};
ghost use Rattle.law_obligations.specs.Mix.{or_none, or_zero, all_mix, any_mix};
ghost use Rattle.law_obligations.specs.Combined.{unions};

use crate::combined::union_of;
use smv_conditions::chances::{Chances, Join, both, chain_of, either};
use smv_conditions::conditions::Conditions;
use std::alloc::{AllocError, Global};

// Also none of them, which is 1 for a conjunction.
#[tactic(auto, unfolding(smv_conditions::specs::Chances::mix_at))]
fn with_yes<S: Conditions>(s: &S, x: Chances<S::Condition>) -> Chances<S::Condition>
    requires made { AreMade (S.IsMade s.now) x }
    ensures made { AreMade (S.IsMade s.now) result }
    ensures mix { (a : ℕ → Bool) → mix_at S.holds s.now a result ≡ or_none (mix_at S.holds s.now a x) }
{
    Chances {
        no: x.no,
        yes: s.constant(true),
        neither: x.neither,
    }
}

// Also none of them, which is 0 for a disjunction.
#[tactic(auto, unfolding(smv_conditions::specs::Chances::mix_at))]
fn with_no<S: Conditions>(s: &S, x: Chances<S::Condition>) -> Chances<S::Condition>
    requires made { AreMade (S.IsMade s.now) x }
    ensures made { AreMade (S.IsMade s.now) result }
    ensures mix { (a : ℕ → Bool) → mix_at S.holds s.now a result ≡ or_zero (mix_at S.holds s.now a x) }
{
    Chances {
        no: s.constant(true),
        yes: x.yes,
        neither: x.neither,
    }
}

/// The conjunction over a type, by its parts at the numbers and classes and by those at the rests.
pub fn all_of<S: Conditions>(
    s: &mut S,
    alloc: Global,
    named: &[Chances<S::Condition>],
    rests: &[Chances<S::Condition>],
) -> Result<Chances<S::Condition>, AllocError>
    requires named_made { AllMade (S.IsMade s.old) named.now }
    requires rests_made { AllMade (S.IsMade s.old) rests.now }
    ensures keeps { KeepsConditions S.IsMade S.holds S.room s.old s.new }
    ensures made { IfOk result (λ z. AreMade (S.IsMade s.new) z) }
    ensures mix { IfOk result (λ z. (a : ℕ → Bool) → mix_at S.holds s.new a z ≡ all_mix (map (mix_at S.holds s.old a) named.now) (unions (map (mix_at S.holds s.old a) rests.now))) }
{
    let y = union_of(s, alloc, rests)?;
    let y = with_yes(s, y);
    let x = chain_of(s, alloc, Join::And, named)?;
    let z = both(s, alloc, x, y)?;
    Ok(z)
}

/// The disjunction over a type.
pub fn any_of<S: Conditions>(
    s: &mut S,
    alloc: Global,
    named: &[Chances<S::Condition>],
    rests: &[Chances<S::Condition>],
) -> Result<Chances<S::Condition>, AllocError>
    requires named_made { AllMade (S.IsMade s.old) named.now }
    requires rests_made { AllMade (S.IsMade s.old) rests.now }
    ensures keeps { KeepsConditions S.IsMade S.holds S.room s.old s.new }
    ensures made { IfOk result (λ z. AreMade (S.IsMade s.new) z) }
    ensures mix { IfOk result (λ z. (a : ℕ → Bool) → mix_at S.holds s.new a z ≡ any_mix (map (mix_at S.holds s.old a) named.now) (unions (map (mix_at S.holds s.old a) rests.now))) }
{
    let y = union_of(s, alloc, rests)?;
    let y = with_no(s, y);
    let x = chain_of(s, alloc, Join::Or, named)?;
    let z = either(s, alloc, x, y)?;
    Ok(z)
}

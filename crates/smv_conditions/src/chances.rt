// Which truth values are possible, as three conditions.
ghost use Rattle.std.specs.Prelude.{◌≡◌, ℕ, Bool, true, false, IfOk, [], ◌∷◌, ◌++◌, map};
ghost use Rattle.smv_conditions.specs.Keep.{KeepsConditions};
ghost use Rattle.law_obligations.specs.Mix.{none_at_all, only_yes, and_mix, or_mix, implies_mix};
ghost use Rattle.smv_conditions.specs.Chain.{joined, chain, AllMade};
ghost use Rattle.smv_conditions.specs.Chances.{AreMade, mix_at};

use crate::conditions::Conditions;
use std::alloc::{AllocError, Global};

/// That 0 is possible, that 1 is, and that it may be neither.
#[derive(Clone, Copy)]
pub struct Chances<C> {
    pub no: C,
    pub yes: C,
    pub neither: C,
}

/// How the parts of a chain are joined.
#[derive(Clone, Copy)]
pub enum Join {
    And,
    Or,
    Implies,
}

/// 1 alone.
#[tactic(auto, unfolding(crate::specs::Chances::mix_at))]
pub fn sure<S: Conditions>(s: &S) -> Chances<S::Condition>
    ensures made { AreMade (S.IsMade s.now) result }
    ensures mix { (a : ℕ → Bool) → mix_at S.holds s.now a result ≡ only_yes }
{
    Chances {
        no: s.constant(false),
        yes: s.constant(true),
        neither: s.constant(false),
    }
}

/// None at all.
#[tactic(auto, unfolding(crate::specs::Chances::mix_at))]
pub fn none<S: Conditions>(s: &S) -> Chances<S::Condition>
    ensures made { AreMade (S.IsMade s.now) result }
    ensures mix { (a : ℕ → Bool) → mix_at S.holds s.now a result ≡ none_at_all }
{
    Chances {
        no: s.constant(false),
        yes: s.constant(false),
        neither: s.constant(false),
    }
}

/// `~`.
pub fn negated<C: Copy>(x: Chances<C>) -> Chances<C>
    ensures no { result.no ≡ x.yes }
    ensures yes { result.yes ≡ x.no }
    ensures neither { result.neither ≡ x.neither }
{
    Chances {
        no: x.yes,
        yes: x.no,
        neither: x.neither,
    }
}

/// `&`.
#[tactic(auto, unfolding(crate::specs::Chances::mix_at))]
pub fn both<S: Conditions>(
    s: &mut S,
    alloc: Global,
    x: Chances<S::Condition>,
    y: Chances<S::Condition>,
) -> Result<Chances<S::Condition>, AllocError>
    requires x_made { AreMade (S.IsMade s.old) x }
    requires y_made { AreMade (S.IsMade s.old) y }
    ensures keeps { KeepsConditions S.IsMade S.holds S.room s.old s.new }
    ensures made { IfOk result (λ z. AreMade (S.IsMade s.new) z) }
    ensures mix { IfOk result (λ z. (a : ℕ → Bool) → mix_at S.holds s.new a z ≡ and_mix (mix_at S.holds s.old a x) (mix_at S.holds s.old a y)) }
{
    let no = s.either(alloc, x.no, y.no)?;
    let yes = s.both(alloc, x.yes, y.yes)?;
    let open = s.either(alloc, y.yes, y.neither)?;
    let left = s.both(alloc, x.neither, open)?;
    let right = s.both(alloc, x.yes, y.neither)?;
    let neither = s.either(alloc, left, right)?;
    Ok(Chances { no, yes, neither })
}

/// `|`.
#[tactic(auto, unfolding(crate::specs::Chances::mix_at))]
pub fn either<S: Conditions>(
    s: &mut S,
    alloc: Global,
    x: Chances<S::Condition>,
    y: Chances<S::Condition>,
) -> Result<Chances<S::Condition>, AllocError>
    requires x_made { AreMade (S.IsMade s.old) x }
    requires y_made { AreMade (S.IsMade s.old) y }
    ensures keeps { KeepsConditions S.IsMade S.holds S.room s.old s.new }
    ensures made { IfOk result (λ z. AreMade (S.IsMade s.new) z) }
    ensures mix { IfOk result (λ z. (a : ℕ → Bool) → mix_at S.holds s.new a z ≡ or_mix (mix_at S.holds s.old a x) (mix_at S.holds s.old a y)) }
{
    let z = both(s, alloc, negated(x), negated(y))?;
    Ok(negated(z))
}

/// `->`.
#[tactic(auto, unfolding(crate::specs::Chances::mix_at))]
fn implied<S: Conditions>(
    s: &mut S,
    alloc: Global,
    x: Chances<S::Condition>,
    y: Chances<S::Condition>,
) -> Result<Chances<S::Condition>, AllocError>
    requires x_made { AreMade (S.IsMade s.old) x }
    requires y_made { AreMade (S.IsMade s.old) y }
    ensures keeps { KeepsConditions S.IsMade S.holds S.room s.old s.new }
    ensures made { IfOk result (λ z. AreMade (S.IsMade s.new) z) }
    ensures mix { IfOk result (λ z. (a : ℕ → Bool) → mix_at S.holds s.new a z ≡ implies_mix (mix_at S.holds s.old a x) (mix_at S.holds s.old a y)) }
{
    either(s, alloc, negated(x), y)
}

/// Two parts of a chain.
fn joined_by<S: Conditions>(
    s: &mut S,
    alloc: Global,
    how: Join,
    x: Chances<S::Condition>,
    y: Chances<S::Condition>,
) -> Result<Chances<S::Condition>, AllocError>
    requires x_made { AreMade (S.IsMade s.old) x }
    requires y_made { AreMade (S.IsMade s.old) y }
    ensures keeps { KeepsConditions S.IsMade S.holds S.room s.old s.new }
    ensures made { IfOk result (λ z. AreMade (S.IsMade s.new) z) }
    ensures mix { IfOk result (λ z. (a : ℕ → Bool) → mix_at S.holds s.new a z ≡ joined how (mix_at S.holds s.old a x) (mix_at S.holds s.old a y)) }
{
    match how {
        Join::And => both(s, alloc, x, y),
        Join::Or => either(s, alloc, x, y),
        Join::Implies => implied(s, alloc, x, y),
    }
}

/// A chain without parts.
#[tactic(auto, unfolding(crate::specs::Chances::mix_at))]
pub fn empty<S: Conditions>(s: &S, how: Join) -> Chances<S::Condition>
    ensures made { AreMade (S.IsMade s.now) result }
    ensures mix { (a : ℕ → Bool) → mix_at S.holds s.now a result ≡ chain how [] }
{
    match how {
        Join::And => sure(s),
        Join::Or => negated(sure(s)),
        Join::Implies => Chances {
            no: s.constant(false),
            yes: s.constant(false),
            neither: s.constant(true),
        },
    }
}

/// A chain of parts.
pub fn chain_of<S: Conditions>(
    s: &mut S,
    alloc: Global,
    how: Join,
    each: &[Chances<S::Condition>],
) -> Result<Chances<S::Condition>, AllocError>
    requires made { AllMade (S.IsMade s.old) each.now }
    ensures keeps { KeepsConditions S.IsMade S.holds S.room s.old s.new }
    ensures made { IfOk result (λ z. AreMade (S.IsMade s.new) z) }
    ensures mix { IfOk result (λ z. (a : ℕ → Bool) → mix_at S.holds s.new a z ≡ chain how (map (mix_at S.holds s.old a) each.now)) }
{
    let Some((last, before)) = each.split_last() else {
        return Ok(empty(s, how));
    };
    chain_before(s, alloc, how, before, *last)
}

// A chain that ends with this part: from the last part to the first, so that a long row takes no stack.
fn chain_before<S: Conditions>(
    s: &mut S,
    alloc: Global,
    how: Join,
    before: &[Chances<S::Condition>],
    last: Chances<S::Condition>,
) -> Result<Chances<S::Condition>, AllocError>
    requires made { AllMade (S.IsMade s.old) before.now }
    requires last { AreMade (S.IsMade s.old) last }
    ensures keeps { KeepsConditions S.IsMade S.holds S.room s.old s.new }
    ensures made { IfOk result (λ z. AreMade (S.IsMade s.new) z) }
    ensures mix { IfOk result (λ z. (a : ℕ → Bool) → mix_at S.holds s.new a z ≡ chain how (map (mix_at S.holds s.old a) (before.now ++ last ∷ []))) }
{
    let mut sum = last;
    for place in (0..before.len()).rev() {
        sum = joined_by(s, alloc, how, before[place], sum)?;
    }
    Ok(sum)
}

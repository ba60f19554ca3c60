// What a definition may give one element, as three conditions.
ghost use Rattle.std.specs.Prelude.{◌≡◌, ℕ, Bool, true, false, ◌&&◌, ◌||◌, IfOk};
ghost use Rattle.smv_conditions.specs.Keep.{KeepsConditions};
ghost use Rattle.law_obligations.specs.Gist.{nothing_alone, if_gist, first_gist, assigned_gist};
ghost use Rattle.smv_conditions.specs.Gists.{AreGistsMade, gist_at};
ghost use Rattle.smv_conditions.specs.Chances.{AreMade, mix_at};

use crate::chances::Chances;
use crate::conditions::Conditions;
use std::alloc::{AllocError, Global};

/// That Nothing is possible, that a result is, and that a result that passes the test is.
#[derive(Clone, Copy)]
pub struct Gists<C> {
    pub nothing: C,
    pub something: C,
    pub given: C,
}

/// Nothing alone.
#[tactic(auto, unfolding(crate::specs::Gists::gist_at))]
pub fn nothing<S: Conditions>(s: &S) -> Gists<S::Condition>
    ensures made { AreGistsMade (S.IsMade s.now) result }
    ensures gist { (a : ℕ → Bool) → gist_at S.holds s.now a result ≡ nothing_alone }
{
    Gists {
        nothing: s.constant(true),
        something: s.constant(false),
        given: s.constant(false),
    }
}

/// The first result of two.
#[tactic(auto, unfolding(crate::specs::Gists::gist_at))]
pub fn first_of<S: Conditions>(
    s: &mut S,
    alloc: Global,
    g: Gists<S::Condition>,
    h: Gists<S::Condition>,
) -> Result<Gists<S::Condition>, AllocError>
    requires g_made { AreGistsMade (S.IsMade s.old) g }
    requires h_made { AreGistsMade (S.IsMade s.old) h }
    ensures keeps { KeepsConditions S.IsMade S.holds S.room s.old s.new }
    ensures made { IfOk result (λ k. AreGistsMade (S.IsMade s.new) k) }
    ensures gist { IfOk result (λ k. (a : ℕ → Bool) → gist_at S.holds s.new a k ≡ first_gist (gist_at S.holds s.old a g) (gist_at S.holds s.old a h)) }
{
    let nothing = s.both(alloc, g.nothing, h.nothing)?;
    let something = s.either(alloc, g.something, h.something)?;
    let later = s.both(alloc, g.nothing, h.given)?;
    let given = s.either(alloc, g.given, later)?;
    Ok(Gists {
        nothing,
        something,
        given,
    })
}

/// One of three by a condition: each where its own holds.
pub fn chosen<S: Conditions>(
    s: &mut S,
    alloc: Global,
    x: Chances<S::Condition>,
    no: S::Condition,
    yes: S::Condition,
    neither: S::Condition,
) -> Result<S::Condition, AllocError>
    requires x_made { AreMade (S.IsMade s.old) x }
    requires no_made { S.IsMade s.old no }
    requires yes_made { S.IsMade s.old yes }
    requires neither_made { S.IsMade s.old neither }
    ensures keeps { KeepsConditions S.IsMade S.holds S.room s.old s.new }
    ensures made { IfOk result (λ c. S.IsMade s.new c) }
    ensures holds { IfOk result (λ c. (a : ℕ → Bool) → S.holds s.new c a ≡ ((S.holds s.old x.no a && S.holds s.old no a) || ((S.holds s.old x.yes a && S.holds s.old yes a) || (S.holds s.old x.neither a && S.holds s.old neither a)))) }
{
    let c = s.both(alloc, x.no, no)?;
    let d = s.both(alloc, x.yes, yes)?;
    let e = s.both(alloc, x.neither, neither)?;
    let de = s.either(alloc, d, e)?;
    s.either(alloc, c, de)
}

/// Under a condition; where it is neither 0 nor 1, everything, unless neither branch has a result.
#[tactic(auto, unfolding(crate::specs::Gists::gist_at, crate::specs::Chances::mix_at))]
pub fn if_of<S: Conditions>(
    s: &mut S,
    alloc: Global,
    everything: S::Condition,
    x: Chances<S::Condition>,
    g: Gists<S::Condition>,
    h: Gists<S::Condition>,
) -> Result<Gists<S::Condition>, AllocError>
    requires everything_made { S.IsMade s.old everything }
    requires x_made { AreMade (S.IsMade s.old) x }
    requires g_made { AreGistsMade (S.IsMade s.old) g }
    requires h_made { AreGistsMade (S.IsMade s.old) h }
    ensures keeps { KeepsConditions S.IsMade S.holds S.room s.old s.new }
    ensures made { IfOk result (λ k. AreGistsMade (S.IsMade s.new) k) }
    ensures gist { IfOk result (λ k. (a : ℕ → Bool) → gist_at S.holds s.new a k ≡ if_gist (S.holds s.old everything a) (mix_at S.holds s.old a x) (gist_at S.holds s.old a g) (gist_at S.holds s.old a h)) }
{
    let none = s.both(alloc, g.nothing, h.nothing)?;
    let some = s.either(alloc, g.something, h.something)?;
    let open = s.both(alloc, some, everything)?;
    let nothing = chosen(s, alloc, x, h.nothing, g.nothing, none)?;
    let something = chosen(s, alloc, x, h.something, g.something, some)?;
    let given = chosen(s, alloc, x, h.given, g.given, open)?;
    Ok(Gists {
        nothing,
        something,
        given,
    })
}

/// An assignment, by whether its element is the one asked for.
#[tactic(auto, unfolding(crate::specs::Gists::gist_at, crate::specs::Chances::mix_at))]
pub fn assigned_of<S: Conditions>(
    s: &mut S,
    alloc: Global,
    everything: S::Condition,
    right: S::Condition,
    x: Chances<S::Condition>,
) -> Result<Gists<S::Condition>, AllocError>
    requires everything_made { S.IsMade s.old everything }
    requires right_made { S.IsMade s.old right }
    requires x_made { AreMade (S.IsMade s.old) x }
    ensures keeps { KeepsConditions S.IsMade S.holds S.room s.old s.new }
    ensures made { IfOk result (λ k. AreGistsMade (S.IsMade s.new) k) }
    ensures gist { IfOk result (λ k. (a : ℕ → Bool) → gist_at S.holds s.new a k ≡ assigned_gist (S.holds s.old everything a) (S.holds s.old right a) (mix_at S.holds s.old a x)) }
{
    let something = s.either(alloc, x.yes, x.neither)?;
    let here = s.both(alloc, x.yes, right)?;
    let open = s.both(alloc, x.neither, everything)?;
    let given = s.either(alloc, here, open)?;
    Ok(Gists {
        nothing: x.no,
        something,
        given,
    })
}

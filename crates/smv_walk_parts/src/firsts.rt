// The first result of several parts.
ghost use Rattle.std.specs.Prelude.{◌≡◌, ℕ, Bool, IfOk, map};
ghost use Rattle.law_obligations.specs.Gist.{first_all};
ghost use Rattle.smv_conditions.specs.Keep.{KeepsConditions};
ghost use Rattle.smv_conditions.specs.Gists.{AreGistsMade, gist_at};
ghost use Rattle.smv_walk_parts.specs.Parts.{AllGistsMade};

use smv_conditions::conditions::Conditions;
use smv_conditions::gists::{Gists, first_of, nothing};
use std::alloc::{AllocError, Global};

/// The first result of all these.
pub fn first_of_all<S: Conditions>(
    s: &mut S,
    alloc: Global,
    each: &[Gists<S::Condition>],
) -> Result<Gists<S::Condition>, AllocError>
    requires made { AllGistsMade (S.IsMade s.old) each.now }
    ensures keeps { KeepsConditions S.IsMade S.holds S.room s.old s.new }
    ensures made { IfOk result (λ g. AreGistsMade (S.IsMade s.new) g) }
    ensures gist { IfOk result (λ g. (a : ℕ → Bool) → gist_at S.holds s.new a g ≡ first_all (map (gist_at S.holds s.old a) each.now)) }
{
    let Some((first, others)) = each.split_first() else {
        return Ok(nothing(s));
    };
    let more = first_of_all(s, alloc, others)?;
    let g = first_of(s, alloc, *first, more)?;
    Ok(g)
}

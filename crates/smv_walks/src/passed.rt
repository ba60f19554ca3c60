// Gists that are left out where nothing alone is possible.
ghost use Rattle.std.specs.Prelude.{◌≡◌, ◌&&◌, ◌++◌, is_none, ℕ, Bool, IfOk, IfSome, OnOk, map};
ghost use Rattle.law_obligations.specs.Gist.{first_all};
ghost use Rattle.smv_conditions.specs.Keep.{KeepsConditions};
ghost use Rattle.smv_conditions.specs.Gists.{AreGistsMade, gist_at};
ghost use Rattle.smv_walk_parts.specs.Parts.{AllGistsMade};
ghost use Rattle.smv_walks.specs.Passed.{listed, gist_or_nothing};

use smv_conditions::conditions::Conditions;
use smv_conditions::gists::{Gists, nothing};
use smv_walk_parts::first_of_all;
use std::alloc::{AllocError, Global};

/// One more, if it is there.
pub(crate) fn add_some<C: Copy>(
    each: &mut Vec<Gists<C>>,
    o: Option<Gists<C>>,
) -> Result<(), AllocError>
    ensures { OnOk result (each.new.items ≡ each.old.items ++ listed o) }
{
    match o {
        Some(g) => {
            each.push(g)?;
            Ok(())
        }
        None => Ok(()),
    }
}

/// The first result of all these; none where there are none.
pub(crate) fn first_of_some<S: Conditions>(
    s: &mut S,
    alloc: Global,
    each: &[Gists<S::Condition>],
) -> Result<Option<Gists<S::Condition>>, AllocError>
    requires made { AllGistsMade (S.IsMade s.old) each.now }
    ensures keeps { KeepsConditions S.IsMade S.holds S.room s.old s.new }
    ensures made { IfOk result (λ o. IfSome o (λ g. AreGistsMade (S.IsMade s.new) g)) }
    ensures gist { IfOk result (λ o. (a : ℕ → Bool) → gist_or_nothing S.holds s.new a o ≡ first_all (map (gist_at S.holds s.old a) each.now)) }
{
    let Some(_) = each.split_first() else {
        return Ok(None);
    };
    let g = first_of_all(s, alloc, each)?;
    Ok(Some(g))
}

/// A gist, or nothing alone where it is left out.
pub(crate) fn or_nothing<S: Conditions>(
    s: &S,
    o: Option<Gists<S::Condition>>,
) -> Gists<S::Condition>
    requires made { IfSome o (λ g. AreGistsMade (S.IsMade s.now) g) }
    ensures made { AreGistsMade (S.IsMade s.now) result }
    ensures gist { (a : ℕ → Bool) → gist_at S.holds s.now a result ≡ gist_or_nothing S.holds s.now a o }
{
    match o {
        Some(g) => g,
        None => nothing(s),
    }
}

/// Both are left out.
pub(crate) fn are_passed<C: Copy>(g: Option<Gists<C>>, h: Option<Gists<C>>) -> bool
    ensures { result ≡ (is_none g && is_none h) }
{
    match g {
        Some(_) => false,
        None => match h {
            Some(_) => false,
            None => true,
        },
    }
}

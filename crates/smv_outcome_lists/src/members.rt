// `in`: an outcome of the left side against the outcomes of each member.
ghost use Rattle.std.specs.Prelude.{◌≡◌, ℕ, Bool, Some, ◌+◌, ◌-◌, ◌++◌, map, IfOk, OnOk};
ghost use Rattle.smv_core.specs.FlatMeaning.{Numbered};
ghost use Rattle.smv_core.specs.Values.{number, numbers_from};
ghost use Rattle.law_obligations.specs.Places.{AbsOutcome, World, named};
ghost use Rattle.smv_spots.specs.Spots.{place_in, outcome_in};
ghost use Rattle.smv_problem_spots.specs.Worlds.{IsWorldOf};
ghost use Rattle.smv_conditions.specs.Keep.{KeepsConditions};
ghost use Rattle.smv_conditions.specs.Chances.{AreMade, mix_at};
ghost use Rattle.smv_conditions.specs.Offers.{AreOffersMade, any_offer};
ghost use Rattle.smv_outcome_lists.specs.Lists.{AreListsMade, member_at, within_at};
ghost use Rattle.smv_outcome_lists.specs.Pairs.{compare_each};
ghost use Rattle.law_obligations.specs.Mix.{or_mix};
ghost use Rattle.smv_core.specs.declared.tree.Op.TheVariants.{Equal};

use crate::pairs::{compared_each, guarded};
use smv_conditions::chances::{Chances, Join, either, empty, none};
use smv_conditions::conditions::Conditions;
use smv_conditions::offers::Offer;
use smv_core::seq::Seq;
use smv_core::tree::Op;
use smv_problem::Problem;
use smv_spots::places::{Sort, spots_from};
use smv_spots::spots::Spot;
use std::alloc::{AllocError, Global};

// Whether an outcome is equal to some member: from the last member to the first, so that a long list takes no stack.
fn member_of<S: Conditions>(
    s: &mut S,
    alloc: Global,
    problem: &Problem,
    u: Option<Spot>,
    vss: &[Seq<Offer<S::Condition>>],
) -> Result<Chances<S::Condition>, AllocError>
    requires made { AreListsMade (S.IsMade s.old) vss.now }
    ensures keeps { KeepsConditions S.IsMade S.holds S.room s.old s.new }
    ensures made { IfOk result (λ z. AreMade (S.IsMade s.new) z) }
    ensures mix { IfOk result (λ z. (w : World) → IsWorldOf problem.entry.now w → (a : ℕ → Bool) → mix_at S.holds s.new a z ≡ member_at w.classes S.holds s.old a (outcome_in w.classes u) vss.now) }
{
    let mut found = empty(s, Join::Or);
    for place in (0..vss.len()).rev() {
        found = with_member(s, alloc, problem, u, vss[place].as_slice(), found)?;
    }
    Ok(found)
}

// One member more, in front of those of which it is known.
fn with_member<S: Conditions>(
    s: &mut S,
    alloc: Global,
    problem: &Problem,
    u: Option<Spot>,
    vs: &[Offer<S::Condition>],
    found: Chances<S::Condition>,
) -> Result<Chances<S::Condition>, AllocError>
    requires made { AreOffersMade (S.IsMade s.old) vs.now }
    requires found_made { AreMade (S.IsMade s.old) found }
    ensures keeps { KeepsConditions S.IsMade S.holds S.room s.old s.new }
    ensures made { IfOk result (λ z. AreMade (S.IsMade s.new) z) }
    ensures mix { IfOk result (λ z. (w : World) → IsWorldOf problem.entry.now w → (a : ℕ → Bool) → mix_at S.holds s.new a z ≡ or_mix (compare_each w.classes S.holds s.old a Equal (outcome_in w.classes u) vs.now) (mix_at S.holds s.old a found)) }
{
    let y = compared_each(s, alloc, problem, Op::Equal, u, vs)?;
    let z = either(s, alloc, y, found)?;
    Ok(z)
}

/// Whether an outcome of these is equal to some member. It is chosen once for all members.
pub fn within_of<S: Conditions>(
    s: &mut S,
    alloc: Global,
    problem: &Problem,
    us: &[Offer<S::Condition>],
    vss: &[Seq<Offer<S::Condition>>],
) -> Result<Chances<S::Condition>, AllocError>
    requires us_made { AreOffersMade (S.IsMade s.old) us.now }
    requires vss_made { AreListsMade (S.IsMade s.old) vss.now }
    ensures keeps { KeepsConditions S.IsMade S.holds S.room s.old s.new }
    ensures made { IfOk result (λ z. AreMade (S.IsMade s.new) z) }
    ensures mix { IfOk result (λ z. (w : World) → IsWorldOf problem.entry.now w → (a : ℕ → Bool) → mix_at S.holds s.new a z ≡ within_at w.classes S.holds s.old a us.now vss.now) }
{
    let Some((u, others)) = us.split_first() else {
        return Ok(none(s));
    };
    let x = within_of(s, alloc, problem, others, vss)?;
    let y = member_of(s, alloc, problem, u.outcome, vss)?;
    let z = guarded(s, alloc, u.when, y, x)?;
    Ok(z)
}

// One list more for each of these spots, with that spot alone.
fn add_each<S: Conditions>(
    s: &S,
    alloc: Global,
    lists: &mut Vec<Seq<Offer<S::Condition>>>,
    spots: &[Spot],
) -> Result<(), AllocError>
    requires made { AreListsMade (S.IsMade s.now) lists.old.items }
    ensures made { OnOk result (AreListsMade (S.IsMade s.now) lists.new.items) }
    ensures adds { OnOk result ((n : Numbered) (p : AbsOutcome → Bool) (a : ℕ → Bool) → map (any_offer n S.holds s.now a p) lists.new.items ≡ map (any_offer n S.holds s.now a p) lists.old.items ++ map (λ q. p (Some (place_in n q))) spots.now) }
{
    let Some((spot, others)) = spots.split_first() else {
        return Ok(());
    };
    let when = s.constant(true);
    let mut list = Seq::new(alloc);
    list.push(Offer {
        outcome: Some(*spot),
        when,
    })?;
    lists.push(list)?;
    add_each(s, alloc, lists, others)?;
    Ok(())
}

/// One list more for each number of a span, with that number alone.
pub fn add_numbers<S: Conditions>(
    s: &S,
    alloc: Global,
    lists: &mut Vec<Seq<Offer<S::Condition>>>,
    low: u16,
    high: u16,
) -> Result<(), AllocError>
    requires made { AreListsMade (S.IsMade s.now) lists.old.items }
    ensures made { OnOk result (AreListsMade (S.IsMade s.now) lists.new.items) }
    ensures adds { OnOk result ((n : Numbered) (p : AbsOutcome → Bool) (a : ℕ → Bool) → map (any_offer n S.holds s.now a p) lists.new.items ≡ map (any_offer n S.holds s.now a p) lists.old.items ++ map (λ k. p (Some (named (number k)))) (numbers_from low (high + 1 - low))) }
{
    let spots = spots_from(alloc, Sort::Number, u32::from(low), u32::from(high) + 1)?;
    add_each(s, alloc, lists, spots.as_slice())?;
    Ok(())
}

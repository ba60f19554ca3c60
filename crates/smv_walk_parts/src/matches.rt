// Whether an assignment is to the element that is asked for.
ghost use Rattle.std.specs.Prelude.{◌≡◌, ℕ, Bool, IfOk, drop};
ghost use Rattle.law_obligations.specs.Places.{World};
ghost use Rattle.smv_spots.specs.Spots.{outcome_in};
ghost use Rattle.smv_problem_spots.specs.Worlds.{IsWorldOf};
ghost use Rattle.smv_conditions.specs.Keep.{KeepsConditions};
ghost use Rattle.smv_conditions.specs.Chances.{AreMade, mix_at};
ghost use Rattle.smv_conditions.specs.Offers.{AreOffersMade};
ghost use Rattle.smv_cells.specs.Cells.{AreCellsMade};
ghost use Rattle.smv_cells.specs.Seen.{View, IsSeen};
ghost use Rattle.smv_outcomes.specs.Remembered.{AreKnown};
ghost use Rattle.smv_walk_parts.specs.Parts.{index_test, index_mix, IsMatch};

use smv_cells::Cell;
use smv_conditions::chances::{Chances, both, none, sure};
use smv_conditions::conditions::Conditions;
use smv_conditions::offers::{Offer, with_chance};
use smv_core::flat::FlatExpr;
use smv_outcomes::{Known, offers_for};
use smv_problem::Problem;
use smv_problem_spots::same::is_same;
use smv_spots::spots::Spot;
use std::alloc::{AllocError, Global};

// An index against the element's, or, where the element has none, whether it is known.
#[tactic(auto, unfolding(crate::specs::Parts::index_test))]
fn at_index(problem: &Problem, index: Option<Spot>, outcome: Option<Spot>) -> Option<bool>
    ensures { (w : World) → IsWorldOf problem.entry.now w → result ≡ index_test w.classes index (outcome_in w.classes outcome) }
{
    match outcome {
        Some(p) => match index {
            Some(q) => Some(is_same(problem, p, q)),
            None => Some(true),
        },
        None => None,
    }
}

// The outcomes of an index against the element's.
fn index_chances<S: Conditions>(
    s: &mut S,
    alloc: Global,
    problem: &Problem,
    index: Option<Spot>,
    offers: &[Offer<S::Condition>],
) -> Result<Chances<S::Condition>, AllocError>
    requires made { AreOffersMade (S.IsMade s.old) offers.now }
    ensures keeps { KeepsConditions S.IsMade S.holds S.room s.old s.new }
    ensures made { IfOk result (λ z. AreMade (S.IsMade s.new) z) }
    ensures mix { IfOk result (λ z. (w : World) → IsWorldOf problem.entry.now w → (a : ℕ → Bool) → mix_at S.holds s.new a z ≡ index_mix w.classes S.holds s.old a index offers.now) }
{
    let Some((offer, others)) = offers.split_first() else {
        return Ok(none(s));
    };
    let x = index_chances(s, alloc, problem, index, others)?;
    let truth = at_index(problem, index, offer.outcome);
    let z = with_chance(s, alloc, truth, offer.when, x)?;
    Ok(z)
}

// All but the first.
fn others_of(indexes: &[Spot]) -> &[Spot]
    ensures { result.now ≡ drop 1 indexes.now }
{
    match indexes.split_first() {
        Some((_, others)) => others,
        None => indexes,
    }
}

/// Whether an assignment with these left sides is to the element of these indexes.
pub fn matched<'a, S: Conditions>(
    s: &mut S,
    alloc: Global,
    problem: &Problem,
    cells: &[Cell<S::Condition>],
    known: &mut Known<'a, Chances<S::Condition>>,
    indexes: &[Spot],
    left: &'a [FlatExpr],
    b: &[Spot],
) -> Result<Chances<S::Condition>, AllocError>
    requires cells_made { AreCellsMade (S.IsMade s.old) cells.now }
    requires known { AreKnown S.IsMade S.holds s.old problem.now cells.now known.old.entries.items }
    ensures keeps { KeepsConditions S.IsMade S.holds S.room s.old s.new }
    ensures made { IfOk result (λ z. AreMade (S.IsMade s.new) z) }
    ensures cells { IfOk result (λ z. AreCellsMade (S.IsMade s.new) cells.now) }
    ensures known { IfOk result (λ z. AreKnown S.IsMade S.holds s.new problem.entry.now cells.now known.new.entries.items) }
    ensures is { IfOk result (λ z. (v : View) → IsSeen S.holds s.old problem.entry.now cells.now v → IsMatch S.holds s.new v indexes.now left.now b.now z) }
{
    let Some((e, others)) = left.split_first() else {
        return Ok(sure(s));
    };
    let x = matched(
        s,
        alloc,
        problem,
        cells,
        known,
        others_of(indexes),
        others,
        b,
    )?;
    let offers = offers_for(s, alloc, problem, cells, known, e, b)?;
    let y = index_chances(
        s,
        alloc,
        problem,
        indexes.first().copied(),
        offers.as_slice(),
    )?;
    let z = both(s, alloc, y, x)?;
    Ok(z)
}

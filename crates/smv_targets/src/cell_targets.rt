// The target of an element.
ghost use Rattle.std.specs.Prelude.{◌≡◌, ℕ, List, Bool, IfOk, map};
ghost use Rattle.law_obligations.specs.Places.{Place, World};
ghost use Rattle.smv_spots.specs.Spots.{place_in, outcome_in};
ghost use Rattle.smv_problem_spots.specs.Worlds.{IsWorldOf};
ghost use Rattle.smv_conditions.specs.Keep.{KeepsConditions};
ghost use Rattle.smv_conditions.specs.Offers.{AreOffersMade, any_offer};
ghost use Rattle.smv_cells.specs.Cells.{AreCellsMade};
ghost use Rattle.smv_cells.specs.Seen.{View, IsSeen};
ghost use Rattle.smv_targets.specs.Targets.{AreAtMade, IsTargetMade, IsTarget};
ghost use Rattle.smv_targets.specs.CellTargets.{is_at, spots_of, AreHeld, IsElementOf, aim_of};

use crate::values::{places_for, value_of};
use crate::{At, Target};
use smv_cells::Cell;
use smv_conditions::conditions::Conditions;
use smv_conditions::offers::Offer;
use smv_core::seq::Seq;
use smv_problem::Problem;
use smv_problem_spots::same::is_same;
use smv_spots::spots::Spot;
use std::alloc::{AllocError, Global};

// Whether an outcome is at this place.
fn is_there(problem: &Problem, spot: Spot, outcome: Option<Spot>) -> bool
    ensures { (w : World) → IsWorldOf problem.entry.now w → result ≡ is_at (place_in w.classes spot) (outcome_in w.classes outcome) }
{
    match outcome {
        Some(p) => is_same(problem, spot, p),
        None => false,
    }
}

// When one of these outcomes is at a place.
fn when_at<S: Conditions>(
    s: &mut S,
    alloc: Global,
    problem: &Problem,
    spot: Spot,
    offers: &[Offer<S::Condition>],
) -> Result<S::Condition, AllocError>
    requires offers_made { AreOffersMade (S.IsMade s.old) offers.now }
    ensures keeps { KeepsConditions S.IsMade S.holds S.room s.old s.new }
    ensures made { IfOk result (λ r. S.IsMade s.new r) }
    ensures offers { IfOk result (λ r. AreOffersMade (S.IsMade s.new) offers.now) }
    ensures holds { IfOk result (λ r. (w : World) → IsWorldOf problem.entry.now w → (a : ℕ → Bool) → S.holds s.new r a ≡ any_offer w.classes S.holds s.old a (is_at (place_in w.classes spot)) offers.now) }
{
    let Some((offer, others)) = offers.split_first() else {
        return Ok(s.constant(false));
    };
    let more = when_at(s, alloc, problem, spot, others)?;
    if is_there(problem, spot, offer.outcome) {
        let r = s.either(alloc, offer.when, more)?;
        return Ok(r);
    }
    Ok(more)
}

// Each of these places, and when one of these outcomes is there.
fn table_of<S: Conditions>(
    s: &mut S,
    alloc: Global,
    problem: &Problem,
    spots: &[Spot],
    offers: &[Offer<S::Condition>],
) -> Result<Vec<At<S::Condition>>, AllocError>
    requires offers_made { AreOffersMade (S.IsMade s.old) offers.now }
    ensures keeps { KeepsConditions S.IsMade S.holds S.room s.old s.new }
    ensures made { IfOk result (λ table. AreAtMade (S.IsMade s.new) table.items) }
    ensures offers { IfOk result (λ table. AreOffersMade (S.IsMade s.new) offers.now) }
    ensures spots { IfOk result (λ table. spots_of table.items ≡ spots.now) }
    ensures holds { IfOk result (λ table. (w : World) → IsWorldOf problem.entry.now w → AreHeld w.classes S.holds s.old s.new offers.now table.items) }
{
    let Some((spot, others)) = spots.split_last() else {
        return Ok(Vec::new(alloc));
    };
    let mut table = table_of(s, alloc, problem, others, offers)?;
    let when = when_at(s, alloc, problem, *spot, offers)?;
    table.push(At { spot: *spot, when })?;
    Ok(table)
}

/// The target of the element of a family at these indexes: its value is read off its cell.
pub fn target_of<S: Conditions>(
    s: &mut S,
    alloc: Global,
    problem: &Problem,
    cells: &[Cell<S::Condition>],
    family: u16,
    indexes: Seq<Spot>,
) -> Result<Target<S::Condition>, AllocError>
    requires cells_made { AreCellsMade (S.IsMade s.old) cells.now }
    ensures keeps { KeepsConditions S.IsMade S.holds S.room s.old s.new }
    ensures made { IfOk result (λ t. IsTargetMade (S.IsMade s.new) t) }
    ensures cells { IfOk result (λ t. AreCellsMade (S.IsMade s.new) cells.now) }
    ensures is { IfOk result (λ t. (v : View) → IsSeen S.holds s.old problem.entry.now cells.now v → (ps : List Place) → map (place_in v.world.classes) indexes ≡ ps → IsElementOf v family ps → IsTarget S.holds s.new t (aim_of v family ps)) }
{
    let every = places_for(alloc, problem, family)?;
    let places = every.as_slice();
    let offers = value_of(s, alloc, problem, cells, family, indexes.as_slice(), places)?;
    let table = table_of(s, alloc, problem, places, offers.as_slice())?;
    Ok(Target {
        indexes,
        table: Seq::from_vec(table),
        always: s.constant(true),
        never: s.constant(false),
    })
}

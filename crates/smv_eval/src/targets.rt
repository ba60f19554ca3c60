// The target of an element that would have a given value.
ghost use Rattle.std.specs.Prelude.{◌≡◌, Bool, IfOk, map};
ghost use Rattle.law_obligations.specs.Places.{World};
ghost use Rattle.smv_problem_spots.specs.Worlds.{IsWorldOf};
ghost use Rattle.smv_targets.specs.Targets.{IsTargetMade};
ghost use Rattle.smv_eval.specs.Sure.{IsTargetAt, at_value};

use smv_core::Seq;
use smv_core::flat::Element;
use smv_problem::Problem;
use smv_problem_spots::same::is_same;
use smv_spots::spots::Spot;
use smv_targets::{At, Target, places_for};
use smv_typed_spots::index_spots;
use std::alloc::{AllocError, Global};

// Each of these places, by whether it is the value.
fn table_at(
    alloc: Global,
    problem: &Problem,
    spots: &[Spot],
    value: Spot,
) -> Result<Seq<At<bool>>, AllocError>
    ensures { IfOk result (λ table. (w : World) → IsWorldOf problem.entry.now w → table ≡ map (at_value w value) spots.now) }
{
    let mut table = Seq::new(alloc);
    for spot in spots {
        let when = is_same(problem, *spot, value);
        table.push(At { spot: *spot, when })?;
    }
    Ok(table)
}

/// The target of an element that would have this value.
#[tactic(auto, using(crate::proofs::SureLaws::target_made))]
pub(crate) fn target_at(
    alloc: Global,
    problem: &Problem,
    element: &Element,
    value: Spot,
) -> Result<Target<bool>, AllocError>
    ensures made { IfOk result (λ t. IsTargetMade (λ (c : Bool). Unit {0}) t) }
    ensures is { IfOk result (λ t. IsTargetAt problem.entry.now element.entry.now value t) }
{
    let indexes = index_spots(alloc, problem, element)?;
    let every = places_for(alloc, problem, element.family)?;
    let table = table_at(alloc, problem, every.as_slice(), value)?;
    Ok(Target {
        indexes,
        table,
        always: true,
        never: false,
    })
}

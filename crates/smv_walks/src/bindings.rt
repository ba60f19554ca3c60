// The bindings inside a `forall`.
ghost use Rattle.std.specs.Prelude.{◌≡◌, map, IfOk};
ghost use Rattle.law_obligations.specs.Places.{World, places_in, bind_place};
ghost use Rattle.smv_spots.specs.Spots.{place_in};
ghost use Rattle.smv_problem_spots.specs.Worlds.{IsWorldOf};

use smv_core::flat::Simple;
use smv_core::seq::Seq;
use smv_problem::Problem;
use smv_sides::expressions::bindings::{bound_named, bound_rests};
use smv_spots::spots::Spot;
use std::alloc::{AllocError, Global};

/// The bindings with the variable at each place of its type.
pub(crate) fn bound_over(
    alloc: Global,
    problem: &Problem,
    b: &[Spot],
    var: u16,
    over: Simple,
) -> Result<Vec<Seq<Spot>>, AllocError>
    ensures { IfOk result (λ inners. (w : World) → IsWorldOf problem.entry.now w → map (map (place_in w.classes)) inners.items ≡ map (bind_place (map (place_in w.classes) b.now) var) (places_in w over)) }
{
    let mut inners = bound_named(alloc, problem, b, var, over)?;
    let mut rests = bound_rests(alloc, problem, b, var, over)?;
    inners.append(&mut rests)?;
    Ok(inners)
}

// The bindings inside a quantifier: its variable at each place of its type.
ghost use Rattle.std.specs.Prelude.{◌≡◌, ◌++◌, ◌∷◌, [], map, take, IfOk, OnOk};
ghost use Rattle.law_obligations.specs.Places.{World, named_in, rests_in, bind_place};
ghost use Rattle.smv_spots.specs.Spots.{place_in};
ghost use Rattle.smv_problem_spots.specs.Worlds.{IsWorldOf};

use smv_conditions::chances::Chances;
use smv_core::flat::Simple;
use smv_core::seq::Seq;
use smv_outcome_lists::bindings::bound_to;
use smv_problem::Problem;
use smv_problem_spots::places::{named_over, rests_over};
use smv_spots::spots::Spot;
use std::alloc::{AllocError, Global};

// The bindings with the variable at each of these spots, behind others.
fn add_bound(
    alloc: Global,
    out: &mut Vec<Seq<Spot>>,
    b: &[Spot],
    var: u16,
    spots: &[Spot],
) -> Result<(), AllocError>
    ensures { OnOk result (out.new.items ≡ out.old.items ++ map (λ q. take var b.now ++ q ∷ []) spots.now) }
{
    let Some((spot, others)) = spots.split_first() else {
        return Ok(());
    };
    let inner = bound_to(alloc, b, var, *spot)?;
    out.push(Seq::from_vec(inner))?;
    add_bound(alloc, out, b, var, others)?;
    Ok(())
}

/// The bindings with the variable at each number, constant and class of its type.
pub fn bound_named(
    alloc: Global,
    problem: &Problem,
    b: &[Spot],
    var: u16,
    over: Simple,
) -> Result<Vec<Seq<Spot>>, AllocError>
    ensures { IfOk result (λ inners. (w : World) → IsWorldOf problem.entry.now w → map (map (place_in w.classes)) inners.items ≡ map (bind_place (map (place_in w.classes) b.now) var) (named_in w over)) }
{
    let spots = named_over(alloc, problem, over)?;
    let mut inners = Vec::new(alloc);
    add_bound(alloc, &mut inners, b, var, spots.as_slice())?;
    Ok(inners)
}

/// The bindings with the variable at each rest of its type.
pub fn bound_rests(
    alloc: Global,
    problem: &Problem,
    b: &[Spot],
    var: u16,
    over: Simple,
) -> Result<Vec<Seq<Spot>>, AllocError>
    ensures { IfOk result (λ inners. (w : World) → IsWorldOf problem.entry.now w → map (map (place_in w.classes)) inners.items ≡ map (bind_place (map (place_in w.classes) b.now) var) (rests_in w over)) }
{
    let spots = rests_over(alloc, problem, over)?;
    let mut inners = Vec::new(alloc);
    add_bound(alloc, &mut inners, b, var, spots.as_slice())?;
    Ok(inners)
}

// One more of the same for each of these bindings.
fn add_same<C: Copy>(
    each: &mut Vec<Chances<C>>,
    x: Chances<C>,
    bindings: &[Seq<Spot>],
) -> Result<(), AllocError>
    ensures { OnOk result (each.new.items ≡ each.old.items ++ map (λ b. x) bindings.now) }
{
    let Some((_, others)) = bindings.split_first() else {
        return Ok(());
    };
    each.push(x)?;
    add_same(each, x, others)?;
    Ok(())
}

/// The same truth values for each of these bindings.
pub(crate) fn same_for_each<C: Copy>(
    alloc: Global,
    x: Chances<C>,
    bindings: &[Seq<Spot>],
) -> Result<Vec<Chances<C>>, AllocError>
    ensures { IfOk result (λ each. each.items ≡ map (λ b. x) bindings.now) }
{
    let mut each = Vec::new(alloc);
    add_same(&mut each, x, bindings)?;
    Ok(each)
}

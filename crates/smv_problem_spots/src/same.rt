// Spots that are the same place.
ghost use Rattle.std.specs.Prelude.{◌≡◌, ◌&&◌};
ghost use Rattle.law_obligations.specs.Places.{World, same_place};
ghost use Rattle.smv_spots.specs.Spots.{place_in};
ghost use Rattle.smv_spots.specs.declared.spots.Spot.TheVariants.{Class, Rest, Constant};
ghost use Rattle.smv_problem_spots.specs.Worlds.{IsWorldOf};

use crate::numbers::{is_one_name, is_one_set};
use smv_problem::Problem;
use smv_spots::spots::Spot;

// Two constants are one place.
#[tactic(auto, using(crate::proofs::WorldLaws::same_constants))]
fn is_same_constant(problem: &Problem, list: u16, value: u16, other: u16, place: u16) -> bool
    ensures { (w : World) → IsWorldOf problem.entry.now w → result ≡ same_place (place_in w.classes (Constant list value)) (place_in w.classes (Constant other place)) }
{
    is_one_name(problem, list, value, other, place)
}

// Two classes are one place.
#[tactic(auto, using(crate::proofs::WorldLaws::same_classes))]
fn is_same_class(problem: &Problem, set: u16, value: u16, other: u16, class: u16) -> bool
    ensures { (w : World) → IsWorldOf problem.entry.now w → result ≡ same_place (place_in w.classes (Class set value)) (place_in w.classes (Class other class)) }
{
    is_one_set(problem, set, other) && value == class
}

// Two rests are one place.
#[tactic(auto, using(crate::proofs::WorldLaws::same_rests))]
fn is_same_rest(problem: &Problem, set: u16, value: u16, other: u16, rest: u16) -> bool
    ensures { (w : World) → IsWorldOf problem.entry.now w → result ≡ same_place (place_in w.classes (Rest set value)) (place_in w.classes (Rest other rest)) }
{
    is_one_set(problem, set, other) && value == rest
}

/// Two spots are one place.
pub fn is_same(problem: &Problem, p: Spot, q: Spot) -> bool
    ensures { (w : World) → IsWorldOf problem.entry.now w → result ≡ same_place (place_in w.classes p) (place_in w.classes q) }
{
    match (p, q) {
        (Spot::Number { value: a }, Spot::Number { value: b }) => a == b,
        (Spot::Constant { list: s, value: a }, Spot::Constant { list: t, value: b }) =>
            is_same_constant(problem, s, a, t, b),
        (Spot::Class { set: s, class: a }, Spot::Class { set: t, class: b }) => is_same_class(
            problem, s, a, t, b,
        ),
        (Spot::Rest { set: s, rest: a }, Spot::Rest { set: t, rest: b }) => is_same_rest(
            problem, s, a, t, b,
        ),
        _ => false,
    }
}

// The places of a type, and constants.
ghost use Rattle.std.specs.Prelude.{◌≡◌, ◌-◌, ◌&&◌, map, IfOk, get_or, slice_get, option_map, nat_eq, nat_lt, nat_le, []};
ghost use Rattle.std.specs.List.{list_any};
ghost use Rattle.smv_core.specs.Values.{constant};
ghost use Rattle.law_obligations.specs.Places.{World, named_in, rests_in, places_in, is_among, as_place};
ghost use Rattle.smv_spots.specs.Spots.{place_in, outcome_in, classes_of, rests_of};
ghost use Rattle.smv_problem_spots.specs.Worlds.{IsWorldOf, is_one_set, is_listed_constant};

use crate::numbers::{classes, constants, is_one_set, name_number, rests};
use smv_core::flat::Simple;
use smv_problem::Problem;
use smv_spots::places::{Sort, spots_from};
use smv_spots::spots::Spot;
use std::alloc::{AllocError, Global};

/// A constant, if its enumeration has it.
pub fn constant_at(problem: &Problem, list: u16, value: u16) -> Option<Spot>
    ensures { (w : World) → IsWorldOf problem.entry.now w → outcome_in w.classes result ≡ as_place (option_map constant (slice_get (get_or w.classes.enums list []) value)) }
{
    if value < constants(problem, list) {
        Some(Spot::Constant { list, value })
    } else {
        None
    }
}

/// The numbers, constants and classes of a type.
pub fn named_over(alloc: Global, problem: &Problem, over: Simple) -> Result<Vec<Spot>, AllocError>
    ensures { IfOk result (λ spots. (w : World) → IsWorldOf problem.entry.now w → map (place_in w.classes) spots.items ≡ named_in w over) }
{
    match over {
        Simple::Range { low, high } => {
            let spots = spots_from(alloc, Sort::Number, u32::from(low), u32::from(high) + 1)?;
            Ok(spots)
        }
        Simple::Enum { list } => {
            let count = u32::from(constants(problem, list));
            let spots = spots_from(alloc, Sort::Constant { list }, 0, count)?;
            Ok(spots)
        }
        Simple::Set { set } => {
            let spots = spots_from(alloc, Sort::Class { set }, 0, classes(problem, set))?;
            Ok(spots)
        }
    }
}

/// The rests of a type.
pub fn rests_over(alloc: Global, problem: &Problem, over: Simple) -> Result<Vec<Spot>, AllocError>
    ensures { IfOk result (λ spots. (w : World) → IsWorldOf problem.entry.now w → map (place_in w.classes) spots.items ≡ rests_in w over) }
{
    match over {
        Simple::Range { .. } => Ok(Vec::new(alloc)),
        Simple::Enum { .. } => Ok(Vec::new(alloc)),
        Simple::Set { set } => {
            let spots = spots_from(alloc, Sort::Rest { set }, 0, rests(problem, set))?;
            Ok(spots)
        }
    }
}

// Whether a number is in a range.
fn is_number(low: u8, high: u8, value: u16) -> bool
    ensures { result ≡ (nat_le low value && nat_le value high) }
{
    u16::from(low) <= value && value <= u16::from(high)
}

// Whether a number is one of these.
fn has_number(names: &[usize], wanted: usize) -> bool
    ensures { result ≡ list_any (λ number. nat_eq number wanted) names.now }
{
    names.iter().any(|number| *number == wanted)
}

// Whether an enumeration has a constant, which is most often one of its own.
#[tactic(auto, using(crate::proofs::WorldLaws::own_constant))]
fn is_constant(problem: &Problem, list: u16, other: u16, value: u16) -> bool
    ensures { result ≡ is_listed_constant problem.entry.now.names list other value }
{
    let Some(names) = problem.names.as_slice().get(list as usize) else {
        return false;
    };
    if list == other && (value as usize) < names.len() {
        return true;
    }
    has_number(names.as_slice(), name_number(problem, other, value))
}

// Whether a set type has a class.
fn is_class(problem: &Problem, set: u16, other: u16, class: u16) -> bool
    ensures { result ≡ (nat_lt class (classes_of (slice_get problem.entry.now.types set)) && is_one_set problem.entry.now other set) }
{
    u32::from(class) < classes(problem, set) && is_one_set(problem, other, set)
}

// Whether a set type has a rest.
fn is_rest(problem: &Problem, set: u16, other: u16, rest: u16) -> bool
    ensures { result ≡ (nat_lt rest (rests_of (slice_get problem.entry.now.types set)) && is_one_set problem.entry.now other set) }
{
    u32::from(rest) < rests(problem, set) && is_one_set(problem, other, set)
}

/// Whether a spot is in a type.
pub fn is_in_type(problem: &Problem, over: Simple, p: Spot) -> bool
    ensures { (w : World) → IsWorldOf problem.entry.now w → result ≡ is_among (places_in w over) (place_in w.classes p) }
{
    match over {
        Simple::Range { low, high } => match p {
            Spot::Number { value } => is_number(low, high, value),
            _ => false,
        },
        Simple::Enum { list } => match p {
            Spot::Constant { list: other, value } => is_constant(problem, list, other, value),
            _ => false,
        },
        Simple::Set { set } => match p {
            Spot::Class { set: other, class } => is_class(problem, set, other, class),
            Spot::Rest { set: other, rest } => is_rest(problem, set, other, rest),
            _ => false,
        },
    }
}

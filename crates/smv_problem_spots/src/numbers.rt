// Set types and enumerations of a problem by their numbers.
ghost use Rattle.std.specs.Prelude.{◌≡◌, get_or, slice_get};
ghost use Rattle.smv_spots.specs.Spots.{classes_of, count_beside, rests_of};
ghost use Rattle.smv_problem_spots.specs.Worlds.{count_at, is_ordered, is_one_set, name_number_at, is_one_constant};

use smv_core::abstract_type::Rest;
use smv_problem::Problem;

/// Whether a set type is an ordset.
pub fn is_ordered(problem: &Problem, set: u16) -> bool
    ensures { result ≡ is_ordered problem.entry.now set }
{
    match problem.ordered.as_slice().get(set as usize) {
        Some(ordered) => *ordered,
        None => false,
    }
}

// The number of the name of a set type; 0 where there is none.
fn set_name_number(problem: &Problem, set: u16) -> usize
    ensures { result ≡ get_or problem.entry.now.set_names set 0 }
{
    match problem.set_names.as_slice().get(set as usize) {
        Some(number) => *number,
        None => 0,
    }
}

/// Whether two numbers are those of one set type.
pub fn is_one_set(problem: &Problem, set: u16, other: u16) -> bool
    ensures { result ≡ is_one_set problem.entry.now set other }
{
    is_ordered(problem, set) == is_ordered(problem, other)
        && set_name_number(problem, set) == set_name_number(problem, other)
}

/// How many constants an enumeration has.
pub fn constants(problem: &Problem, list: u16) -> u16
    ensures { result ≡ count_at problem.entry.now.lists list }
{
    match problem.lists.as_slice().get(list as usize) {
        Some(count) => *count,
        None => 0,
    }
}

// The number of the name at a place of an enumeration.
fn number_in(names: &[usize], value: u16) -> usize
    ensures { result ≡ get_or names.now value 0 }
{
    match names.get(value as usize) {
        Some(number) => *number,
        None => 0,
    }
}

/// The number of the name of a constant; 0 where there is none.
pub fn name_number(problem: &Problem, list: u16, value: u16) -> usize
    ensures { result ≡ name_number_at problem.entry.now.names list value }
{
    match problem.names.as_slice().get(list as usize) {
        Some(names) => number_in(names.as_slice(), value),
        None => 0,
    }
}

/// Whether two constants are one.
pub(crate) fn is_one_name(problem: &Problem, list: u16, value: u16, other: u16, place: u16) -> bool
    ensures { result ≡ is_one_constant problem.entry.now.names list value other place }
{
    name_number(problem, list, value) == name_number(problem, other, place)
}

/// How many classes a set type has.
pub fn classes(problem: &Problem, set: u16) -> u32
    ensures { result ≡ classes_of (slice_get problem.entry.now.types set) }
{
    match problem.types.as_slice().get(set as usize) {
        Some(t) => u32::from(t.named),
        None => 0,
    }
}

// How many rests there are beside so many classes.
fn beside(rest: Rest, classes: u16) -> u32
    ensures { result ≡ count_beside rest classes }
{
    match rest {
        Rest::None => 0,
        Rest::One => 1,
        Rest::Gaps => u32::from(classes) + 1,
    }
}

/// How many rests a set type has.
pub fn rests(problem: &Problem, set: u16) -> u32
    ensures { result ≡ rests_of (slice_get problem.entry.now.types set) }
{
    match problem.types.as_slice().get(set as usize) {
        Some(t) => beside(t.rest, t.named),
        None => 0,
    }
}

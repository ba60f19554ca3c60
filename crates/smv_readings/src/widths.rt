// How many bits a problem has: the least number for each element that its abstract values need, and at least one.
ghost use Rattle.std.specs.Prelude.{◌≡◌, ◌≤◌, [], length, slice_get};
ghost use Rattle.smv_core.specs.declared.flat.Simple.TheVariants.{Enum};
ghost use Rattle.law_obligations.specs.Places.{rests_beside};
ghost use Rattle.law_obligations.specs.Codes.{bits_for};
ghost use Rattle.law_obligations.specs.Readings.{state_bits as bits_of_case};
ghost use Rattle.smv_problem.specs.WellFormed.{IsProblem, OfCases};
ghost use Rattle.smv_readings.specs.StateBits.{count_of, count_in, bits_of_family, bits_in};

use smv_core::abstract_type::{AbsType, Rest};
use smv_core::flat::{Family, Simple};
use smv_problem::Problem;

/// The bits of an element with so many abstract values.
#[tactic(auto, using(crate::proofs::Logarithms::bits))]
pub(crate) fn bits_needed(values: u32) -> u32
    ensures { result ≡ bits_for values }
{
    if values <= 2 {
        1
    } else {
        (values - 1).ilog2() + 1
    }
}

// How many rests stand beside so many classes.
#[tactic(auto, using(crate::proofs::Counts::counted))]
fn rests(rest: Rest, classes: u16) -> u32
    ensures count { result ≡ length (rests_beside rest classes) }
    ensures few { result ≤ 65536 }
{
    match rest {
        Rest::None => 0,
        Rest::One => 1,
        Rest::Gaps => u32::from(classes) + 1,
    }
}

// How many classes and rests a set type has.
fn places(types: &[AbsType], set: u16) -> u32
    ensures { result ≡ count_of (slice_get types.now set) }
{
    match types.get(set as usize) {
        Some(t) => u32::from(t.named) + rests(t.rest, t.named),
        None => 0,
    }
}

// How many constants an enumeration has.
fn constants(lists: &[u16], list: u16) -> u32
    ensures { result ≡ count_in lists.now [] (Enum list) }
{
    match lists.get(list as usize) {
        Some(count) => u32::from(*count),
        None => 0,
    }
}

/// How many abstract values a type has, by the lengths of enumerations and the abstract forms of set types.
pub fn values(lists: &[u16], types: &[AbsType], over: Simple) -> u32
    ensures { result ≡ count_in lists.now types.now over }
{
    match over {
        Simple::Range { low, high } => (u32::from(high) + 1).saturating_sub(u32::from(low)),
        Simple::Enum { list } => constants(lists, list),
        Simple::Set { set } => places(types, set),
    }
}

/// The bits of an element of a family.
pub fn family_bits(families: &[Family], lists: &[u16], types: &[AbsType], family: u16) -> u32
    ensures { result ≡ bits_of_family families.now lists.now types.now family }
{
    match families.get(family as usize) {
        Some(f) => bits_needed(values(lists, types, f.value)),
        None => bits_needed(0),
    }
}

// The bits of all elements, where they are few.
fn total(problem: &Problem) -> u16
    requires { bits_in problem.now ≤ 1024 }
    ensures { result ≡ bits_in problem.entry.now }
{
    let mut total = 0;
    for x in problem.elements.as_slice() {
        total += family_bits(
            problem.families.as_slice(),
            problem.lists.as_slice(),
            problem.types.as_slice(),
            x.family,
        );
    }
    total as u16
}

/// The state bits of a problem. It takes no memory.
pub fn state_bits(problem: &Problem) -> u16
    requires { IsProblem problem.now }
    ensures { OfCases problem.entry.now (λ c. result ≡ bits_of_case c) }
{
    total(problem)
}

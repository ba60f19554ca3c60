// What an assignment of the state bits is read as: the abstract state of a problem, by the bits of its elements.
ghost use Rattle.std.specs.Prelude.{◌≡◌, ◌≤◌, ◌<◌, Some, length, slice_get, IfOk};
ghost use Rattle.law_obligations.specs.Codes.{code_from};
ghost use Rattle.law_obligations.specs.Readings.{reading, state_bits};
ghost use Rattle.smv_problem.specs.Written.{written_state};
ghost use Rattle.smv_problem.specs.WellFormed.{IsProblem, OfCases};
ghost use Rattle.smv_readings.specs.StateBits.{count_for, bits_in as bits_of_problem};
ghost use Rattle.smv_readings.specs.States.{bits_in, values_beside, values_in, values_for, value_of, state_in, IsNarrow, AreNarrow};

use crate::widths::{bits_needed, values};
use smv_core::Seq;
use smv_core::abstract_type::AbsType;
use smv_core::flat::{Family, Simple};
use smv_problem::{AbsState, AbsValue, Problem};
use std::alloc::{AllocError, Global};

// The number that bits spell, the highest first.
fn spelled(bits: &[bool]) -> u64
    requires { length bits.now ≤ 32 }
    ensures { result ≡ code_from (bits_in bits.now) 0 (length bits.now) }
{
    let mut code = 0;
    for bit in bits {
        code = 2 * code + u64::from(*bit);
    }
    code
}

// The class or rest at a place among those of a set type.
fn class_or_rest(t: AbsType, place: u32) -> AbsValue
    requires narrow { IsNarrow t }
    requires there { place < length (values_beside (Some t)) }
    ensures { result ≡ value_of (values_beside (Some t)) place }
{
    if place < u32::from(t.named) {
        return AbsValue::Named { class: place as u8 };
    }
    AbsValue::Rest {
        gap: (place - u32::from(t.named)) as u8,
    }
}

// The same of a set type by its number.
fn of_set_type(types: &[AbsType], set: u16, place: u32) -> AbsValue
    requires narrow { AreNarrow types.now }
    requires there { place < length (values_beside (slice_get types.now set)) }
    ensures { result ≡ value_of (values_beside (slice_get types.now set)) place }
{
    match types.get(set as usize) {
        Some(t) => class_or_rest(*t, place),
        None => AbsValue::Number { value: 0 },
    }
}

// The value of a code among those of a type.
fn of_type(lists: &[u16], types: &[AbsType], over: Simple, code: u64) -> AbsValue
    requires { AreNarrow types.now }
    ensures { result ≡ value_of (values_in lists.now types.now over) code }
{
    let count = values(lists, types, over);
    if count == 0 {
        return AbsValue::Number { value: 0 };
    }
    let place = code.min(u64::from(count - 1)) as u32;
    match over {
        Simple::Range { low, high: _ } => AbsValue::Number {
            value: u16::from(low) + place as u16,
        },
        Simple::Enum { list: _ } => AbsValue::Constant {
            place: place as u16,
        },
        Simple::Set { set } => of_set_type(types, set, place),
    }
}

// The value of a code among those of a family.
fn of_family(
    families: &[Family],
    lists: &[u16],
    types: &[AbsType],
    family: u16,
    code: u64,
) -> AbsValue
    requires { AreNarrow types.now }
    ensures { result ≡ value_of (values_for lists.now types.now (slice_get families.now family)) code }
{
    match families.get(family as usize) {
        Some(f) => of_type(lists, types, f.value, code),
        None => AbsValue::Number { value: 0 },
    }
}

// How many abstract values a family has.
fn count_of(families: &[Family], lists: &[u16], types: &[AbsType], family: u16) -> u32
    ensures { result ≡ count_for lists.now types.now (slice_get families.now family) }
{
    match families.get(family as usize) {
        Some(f) => values(lists, types, f.value),
        None => 0,
    }
}

// The abstract state that the state bits are read as, by the problem as data.
fn read(alloc: Global, problem: &Problem, bits: &[bool]) -> Result<AbsState, AllocError>
    requires narrow { AreNarrow problem.now.types }
    requires length { length bits.now ≡ bits_of_problem problem.now }
    ensures { IfOk result (λ state. state ≡ state_in problem.entry.now (bits_in bits.now)) }
{
    let families = problem.families.as_slice();
    let lists = problem.lists.as_slice();
    let types = problem.types.as_slice();
    let mut values = Seq::new(alloc);
    let mut bit = 0;
    for x in problem.elements.as_slice() {
        let count = count_of(families, lists, types, x.family);
        let end = bit + bits_needed(count) as usize;
        let code = spelled(&bits[bit..end]);
        values.push(of_family(families, lists, types, x.family, code))?;
        bit = end;
    }
    Ok(AbsState { values })
}

/// The abstract state that the state bits are read as.
pub fn read_state(alloc: Global, problem: &Problem, bits: &[bool]) -> Result<AbsState, AllocError>
    requires well_formed { IsProblem problem.now }
    requires length { OfCases problem.now (λ c. length bits.now ≡ state_bits c) }
    ensures { IfOk result (λ state. OfCases problem.entry.now (λ c. state ≡ written_state c (reading c (bits_in bits.now)))) }
{
    read(alloc, problem, bits)
}

// The places of a type.
ghost use Rattle.std.specs.Prelude.{◌≡◌, ◌-◌, map, length, IfOk, get_or, slice_get, []};
ghost use Rattle.smv_core.specs.Values.{numbers_from};
ghost use Rattle.law_obligations.specs.Places.{World, named_in, rests_in};
ghost use Rattle.smv_spots.specs.Spots.{place_by, spot_of, classes_of, count_beside, rests_of, IsWorld};
ghost use Rattle.smv_core.specs.declared.flat.Design.{Design};

use crate::spots::Spot;
use smv_core::abstract_type::{AbsType, Rest};
use smv_core::flat::{Design, Simple};
use std::alloc::{AllocError, Global};

/// The spots that differ only in their last number.
#[derive(Clone, Copy)]
pub enum Sort {
    Number,
    Constant { list: u16 },
    Class { set: u16 },
    Rest { set: u16 },
}

// One of them.
fn spot(sort: Sort, value: u16) -> Spot
    ensures { result ≡ spot_of sort value }
{
    match sort {
        Sort::Number => Spot::Number { value },
        Sort::Constant { list } => Spot::Constant { list, value },
        Sort::Class { set } => Spot::Class { set, class: value },
        Sort::Rest { set } => Spot::Rest { set, rest: value },
    }
}

/// Those from a number on, up to another.
pub fn spots_from(alloc: Global, sort: Sort, first: u32, end: u32) -> Result<Vec<Spot>, AllocError>
    ensures { IfOk result (λ spots. spots.items ≡ map (spot_of sort) (numbers_from first (end - first))) }
{
    let mut spots = Vec::new(alloc);
    for value in first..end {
        let Ok(value) = u16::try_from(value) else {
            return Err(AllocError);
        };
        spots.push(spot(sort, value))?;
    }
    Ok(spots)
}

// How many constants an enumeration has.
fn constants(design: &Design, list: u16) -> usize
    ensures { result ≡ length (get_or design.now.enums list []) }
{
    match design.enums.as_slice().get(list as usize) {
        Some(names) => names.len(),
        None => 0,
    }
}

// How many classes a set type has.
fn classes(types: &[AbsType], set: u16) -> u32
    ensures { result ≡ classes_of (slice_get types.now set) }
{
    match types.get(set as usize) {
        Some(t) => u32::from(t.named),
        None => 0,
    }
}

// How many rests there are beside so many classes.
fn beside(rest: Rest, classes: u16) -> u32
    ensures { result ≡ count_beside rest classes }
{
    match rest {
        Rest::None => 0,
        Rest::One => 1,
        Rest::Gaps => u32::from(classes) + 1,
    }
}

// How many rests a set type has.
fn rests(types: &[AbsType], set: u16) -> u32
    ensures { result ≡ rests_of (slice_get types.now set) }
{
    match types.get(set as usize) {
        Some(t) => beside(t.rest, t.named),
        None => 0,
    }
}

/// The numbers, constants and classes of a type.
pub fn named_over(
    alloc: Global,
    design: &Design,
    types: &[AbsType],
    over: Simple,
) -> Result<Vec<Spot>, AllocError>
    ensures { IfOk result (λ spots. (w : World) → IsWorld design.now types.now w → map (place_by design.now) spots.items ≡ named_in w over) }
{
    match over {
        Simple::Range { low, high } => {
            let spots = spots_from(alloc, Sort::Number, u32::from(low), u32::from(high) + 1)?;
            Ok(spots)
        }
        Simple::Enum { list } => {
            let Ok(count) = u32::try_from(constants(design, list)) else {
                return Err(AllocError);
            };
            let spots = spots_from(alloc, Sort::Constant { list }, 0, count)?;
            Ok(spots)
        }
        Simple::Set { set } => {
            let spots = spots_from(alloc, Sort::Class { set }, 0, classes(types, set))?;
            Ok(spots)
        }
    }
}

/// The rests of a type.
pub fn rests_over(alloc: Global, types: &[AbsType], over: Simple) -> Result<Vec<Spot>, AllocError>
    ensures { IfOk result (λ spots. (design : Design) (w : World) → IsWorld design types.now w → map (place_by design) spots.items ≡ rests_in w over) }
{
    match over {
        Simple::Range { .. } => Ok(Vec::new(alloc)),
        Simple::Enum { .. } => Ok(Vec::new(alloc)),
        Simple::Set { set } => {
            let spots = spots_from(alloc, Sort::Rest { set }, 0, rests(types, set))?;
            Ok(spots)
        }
    }
}

// The cases of a leaf, one parameter after the other. Each call takes the slots of the parameters, one of them for each set type, and the classes so far.
ghost use Rattle.std.specs.Prelude.{◌≡◌, ◌≤◌, ◌-◌, ◌+◌, [], ◌++◌, map, flat_map, length};
ghost use Rattle.std.specs.List.{list_all};
ghost use Rattle.smv_core.specs.Values.{numbers_from};
ghost use Rattle.smv_core.specs.declared.flat.Class.TheVariants as class;
ghost use Rattle.smv_cases.specs.Slots.{keeps, grown_of, grown_by, grown_behind, classes_of, AreTypes, Gathers};

use crate::rules::{is_allowed, limits_at};
use crate::slots::Slot;
use smv_core::Seq;
use smv_core::flat::{Case, Class, Simple};
use std::alloc::{AllocError, Global};

/// The most cases that a leaf may have.
pub const MOST: usize = 4096;

// The rules of the set type of each of these parameters are kept.
fn keep_all(slots: &[Slot], some: &[Slot], classes: &[Class]) -> bool
    ensures { result ≡ list_all (keeps slots.now classes.now) some.now }
{
    match some {
        [] => true,
        [slot, more @ ..] => keep(slots, slot, classes) && keep_all(slots, more, classes),
    }
}

// The rules of the set type of a parameter are kept.
fn keep(slots: &[Slot], slot: &Slot, classes: &[Class]) -> bool
    ensures { result ≡ keeps slots.now classes.now slot.now }
{
    match slot.treatment {
        None => true,
        Some(treatment) => match slot.over {
            Simple::Set { set } => is_allowed(slots, classes, treatment, usize::from(set)),
            Simple::Range { .. } => true,
            Simple::Enum { .. } => true,
        },
    }
}

/// The cases that begin with these classes, where these parameters are left, are put behind those found; false where there are too many.
#[cycle(growing)]
pub fn grow(
    alloc: Global,
    slots: &[Slot],
    types: &[Slot],
    before: &[Class],
    more: &[Slot],
    found: &mut Vec<Case>,
) -> Result<bool, AllocError>
    requires slots { length slots.now ≤ 8 }
    requires types { AreTypes slots.now types.now }
    requires found { length (classes_of found.old.items) ≤ 4096 }
    ensures { Gathers result (classes_of found.old.items) (classes_of found.new.items) (grown_of slots.now before.now more.now) }
{
    match more {
        [] => finish(alloc, slots, types, before, found),
        [slot, more @ ..] => match slot.over {
            Simple::Range { low, high } => {
                numbers(alloc, slots, types, before, more, low, high, found)
            }
            Simple::Enum { .. } => Ok(true),
            Simple::Set { .. } => classes(alloc, slots, types, before, slot, more, found),
        },
    }
}

// A case with these classes, if they keep the rules.
fn finish(
    alloc: Global,
    slots: &[Slot],
    types: &[Slot],
    before: &[Class],
    found: &mut Vec<Case>,
) -> Result<bool, AllocError>
    requires types { AreTypes slots.now types.now }
    requires found { length (classes_of found.old.items) ≤ 4096 }
    ensures { Gathers result (classes_of found.old.items) (classes_of found.new.items) (grown_of slots.now before.now []) }
{
    if !keep_all(slots, types, before) {
        return Ok(true);
    }
    if found.len() == MOST {
        return Ok(false);
    }
    let classes = Seq::from_vec(before.to_vec(alloc)?);
    found.push(Case { classes })?;
    Ok(true)
}

// The cases where the next parameter has this class.
#[cycle(growing)]
fn grow_behind(
    alloc: Global,
    slots: &[Slot],
    types: &[Slot],
    before: &[Class],
    more: &[Slot],
    class: Class,
    found: &mut Vec<Case>,
) -> Result<bool, AllocError>
    requires slots { length slots.now ≤ 8 }
    requires types { AreTypes slots.now types.now }
    requires found { length (classes_of found.old.items) ≤ 4096 }
    ensures { Gathers result (classes_of found.old.items) (classes_of found.new.items) (grown_behind slots.now before.now more.now class) }
{
    let mut next = before.to_vec(alloc)?;
    next.push(class)?;
    grow(alloc, slots, types, next.as_slice(), more, found)
}

// The cases where it has each number of a range.
#[cycle(growing)]
fn numbers(
    alloc: Global,
    slots: &[Slot],
    types: &[Slot],
    before: &[Class],
    more: &[Slot],
    low: u8,
    high: u8,
    found: &mut Vec<Case>,
) -> Result<bool, AllocError>
    requires slots { length slots.now ≤ 8 }
    requires types { AreTypes slots.now types.now }
    requires found { length (classes_of found.old.items) ≤ 4096 }
    ensures { Gathers result (classes_of found.old.items) (classes_of found.new.items) (flat_map (grown_behind slots.now before.now more.now) (map class.Number (numbers_from low (high + 1 - low)))) }
{
    for value in usize::from(low)..usize::from(high) + 1 {
        let class = Class::Number { value: value as u8 };
        if !grow_behind(alloc, slots, types, before, more, class, found)? {
            return Ok(false);
        }
    }
    Ok(true)
}

// The cases where it has each class of its set type that may stand there, and then each rest.
#[cycle(growing)]
fn classes(
    alloc: Global,
    slots: &[Slot],
    types: &[Slot],
    before: &[Class],
    slot: &Slot,
    more: &[Slot],
    found: &mut Vec<Case>,
) -> Result<bool, AllocError>
    requires slots { length slots.now ≤ 8 }
    requires types { AreTypes slots.now types.now }
    requires found { length (classes_of found.old.items) ≤ 4096 }
    ensures { Gathers result (classes_of found.old.items) (classes_of found.new.items) (flat_map (grown_by slots.now before.now slot.now more.now) (map class.Named (numbers_from 0 (length slots.now)) ++ map class.Rest (numbers_from 0 (length slots.now + 1)))) }
{
    let limits = limits_at(slots, before, slot);
    if !named(alloc, slots, types, before, more, limits.named, found)? {
        return Ok(false);
    }
    rests(alloc, slots, types, before, more, limits.rests, found)
}

// The cases where it has each of so many named classes.
#[cycle(growing)]
fn named(
    alloc: Global,
    slots: &[Slot],
    types: &[Slot],
    before: &[Class],
    more: &[Slot],
    count: usize,
    found: &mut Vec<Case>,
) -> Result<bool, AllocError>
    requires slots { length slots.now ≤ 8 }
    requires types { AreTypes slots.now types.now }
    requires count { count ≤ 9 }
    requires found { length (classes_of found.old.items) ≤ 4096 }
    ensures { Gathers result (classes_of found.old.items) (classes_of found.new.items) (flat_map (grown_behind slots.now before.now more.now) (map class.Named (numbers_from 0 count))) }
{
    for place in 0..count {
        let class = Class::Named { class: place as u8 };
        if !grow_behind(alloc, slots, types, before, more, class, found)? {
            return Ok(false);
        }
    }
    Ok(true)
}

// The cases where it has each of so many rests.
#[cycle(growing)]
fn rests(
    alloc: Global,
    slots: &[Slot],
    types: &[Slot],
    before: &[Class],
    more: &[Slot],
    count: usize,
    found: &mut Vec<Case>,
) -> Result<bool, AllocError>
    requires slots { length slots.now ≤ 8 }
    requires types { AreTypes slots.now types.now }
    requires count { count ≤ 9 }
    requires found { length (classes_of found.old.items) ≤ 4096 }
    ensures { Gathers result (classes_of found.old.items) (classes_of found.new.items) (flat_map (grown_behind slots.now before.now more.now) (map class.Rest (numbers_from 0 count))) }
{
    for place in 0..count {
        let class = Class::Rest { gap: place as u8 };
        if !grow_behind(alloc, slots, types, before, more, class, found)? {
            return Ok(false);
        }
    }
    Ok(true)
}

// The classes of types at given sizes, and how many they are.
ghost use Rattle.std.specs.Prelude.{◌≡◌, ◌≤◌, ◌+◌, ◌-◌, [], get_or, map, length, slice_get, IfOk};
ghost use Rattle.smv_core.specs.Values.{numbers_from};
ghost use Rattle.smv_core.specs.FlatMeaning.{values_in};
ghost use Rattle.smv_core.specs.declared.abstract_type.AbsType.{AbsType};
ghost use Rattle.smv_core.specs.declared.flat.Class.TheVariants as class;
ghost use Rattle.law_obligations.specs.Covers.{AreApart};
ghost use Rattle.law_obligations.specs.Sets.{Has};
ghost use Rattle.law_concrete.specs.Concrete.{sized};
ghost use Rattle.law_concrete.specs.Sizes.{sizes_at};
ghost use Rattle.smv_spots.specs.Spots.{classes_of};
ghost use Rattle.smv_reads.specs.Views.{classes_in};
ghost use Rattle.smv_concrete.specs.Subjects.{whole_types};

use smv_core::abstract_type::AbsType;
use smv_core::flat::{Class, Design, Simple};
use std::alloc::{AllocError, Global};

// The numbers from one on, up to another.
fn numbers(alloc: Global, first: usize, end: usize) -> Result<Vec<Class>, AllocError>
    requires { end ≤ 256 }
    ensures { IfOk result (λ classes. classes.items ≡ map class.Number (numbers_from first (end - first))) }
{
    let mut classes = Vec::new(alloc);
    for value in first..end {
        classes.push(Class::Number { value: value as u8 })?;
    }
    Ok(classes)
}

// So many classes of a set type.
fn named(alloc: Global, count: usize) -> Result<Vec<Class>, AllocError>
    requires { count ≤ 256 }
    ensures { IfOk result (λ classes. classes.items ≡ map class.Named (numbers_from 0 count)) }
{
    let mut classes = Vec::new(alloc);
    for class in 0..count {
        classes.push(Class::Named { class: class as u8 })?;
    }
    Ok(classes)
}

// How many classes a set type has, by its abstract form.
fn named_count(types: &[AbsType], set: u16) -> usize
    ensures { result ≡ classes_of (slice_get types.now set) }
{
    match types.get(usize::from(set)) {
        Some(form) => usize::from(form.named),
        None => 0,
    }
}

/// The numbers of a range and the classes of a set type.
pub(crate) fn classes_over(
    alloc: Global,
    types: &[AbsType],
    over: Simple,
) -> Result<Vec<Class>, AllocError>
    requires { (t : AbsType) → Has types.now t → t.named ≤ 256 }
    ensures { IfOk result (λ classes. classes.items ≡ classes_in types.now over) }
{
    match over {
        Simple::Range { low, high } => numbers(alloc, usize::from(low), usize::from(high) + 1),
        Simple::Enum { .. } => Ok(Vec::new(alloc)),
        Simple::Set { set } => named(alloc, named_count(types, set)),
    }
}

// How many numbers a range has.
fn range_count(low: u8, high: u8) -> usize
    ensures { result ≡ high + 1 - low }
{
    (usize::from(high) + 1).saturating_sub(usize::from(low))
}

/// How many classes a type has.
pub(crate) fn class_count(types: &[AbsType], over: Simple) -> usize
    ensures { result ≡ length (classes_in types.now over) }
{
    match over {
        Simple::Range { low, high } => range_count(low, high),
        Simple::Enum { .. } => 0,
        Simple::Set { set } => named_count(types, set),
    }
}

// How many constants an enumeration has.
fn constants(design: &Design, list: u16) -> usize
    ensures { result ≡ length (get_or design.now.enums list []) }
{
    match design.enums.as_slice().get(usize::from(list)) {
        Some(names) => names.as_slice().len(),
        None => 0,
    }
}

/// How many values a type has at given sizes, by the abstract forms of set types.
pub(crate) fn value_count(design: &Design, sizes: &[u16], types: &[AbsType], over: Simple) -> usize
    requires apart { AreApart design.now.sets }
    requires types { types.now ≡ whole_types design.now.sets sizes.now }
    ensures { result ≡ length (values_in (sized design.now (sizes_at design.now.sets sizes.now)) over) }
{
    match over {
        Simple::Range { low, high } => range_count(low, high),
        Simple::Enum { list } => constants(design, list),
        Simple::Set { set } => named_count(types, set),
    }
}

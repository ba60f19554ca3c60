// Which classes the indexes of a reference may be.
ghost use Rattle.std.specs.Prelude.{◌≡◌, ◌≤◌, ◌+◌, ◌-◌, map, IfOk, option_copied, slice_get};
ghost use Rattle.smv_core.specs.Values.{numbers_from};
ghost use Rattle.smv_core.specs.FlatMeaning.{flat_index};
ghost use Rattle.smv_core.specs.declared.flat.Class.TheVariants as class;
ghost use Rattle.smv_core.specs.declared.flat.Simple.{Simple};
ghost use Rattle.smv_core.specs.declared.abstract_type.AbsType.{AbsType};
ghost use Rattle.law_obligations.specs.Sets.{Has};
ghost use Rattle.law_obligations.specs.Places.{named_in};
ghost use Rattle.law_obligations.specs.Covers.{IsIndexType};
ghost use Rattle.law_obligations.specs.Cones.{index_places};
ghost use Rattle.law_obligations.specs.Reads as reads;
ghost use Rattle.smv_problem.specs.Written.{written_class};
ghost use Rattle.smv_indexes.specs.Indexes.{index_of};
ghost use Rattle.smv_spots.specs.Spots.{classes_of};
ghost use Rattle.smv_reads.specs.Views as spec;
ghost use Rattle.smv_reads.specs.Views.{IsView, world_of, places, place_in, classes_in};
ghost use Rattle.smv_reads.specs.Reading.{choice_in, choices_in};

use crate::bindings::{View, spot_in};
use smv_core::Seq;
use smv_core::abstract_type::AbsType;
use smv_core::flat::{Class, FlatExpr, Simple};
use smv_indexes::{Index, known};
use smv_spots::same::is_same;
use smv_spots::spots::Spot;
use std::alloc::{AllocError, Global};

// The numbers of a range.
fn numbers(alloc: Global, low: u8, high: u8) -> Result<Vec<Class>, AllocError>
    ensures { IfOk result (λ classes. classes.items ≡ map class.Number (numbers_from low (high + 1 - low))) }
{
    let mut classes = Vec::new(alloc);
    for value in u16::from(low)..u16::from(high) + 1 {
        classes.push(Class::Number { value: value as u8 })?;
    }
    Ok(classes)
}

// So many classes.
fn names(alloc: Global, count: u16) -> Result<Vec<Class>, AllocError>
    requires { count ≤ 256 }
    ensures { IfOk result (λ classes. classes.items ≡ map class.Named (numbers_from 0 count)) }
{
    let mut classes = Vec::new(alloc);
    for class in 0..count {
        classes.push(Class::Named { class: class as u8 })?;
    }
    Ok(classes)
}

// How many classes a set type has.
fn count(types: &[AbsType], set: u16) -> u16
    ensures { result ≡ classes_of (slice_get types.now set) }
{
    match types.get(set as usize) {
        Some(t) => t.named,
        None => 0,
    }
}

/// The numbers of a range, or the classes of a set type.
pub fn classes_over(
    alloc: Global,
    types: &[AbsType],
    over: Simple,
) -> Result<Vec<Class>, AllocError>
    requires { (t : AbsType) → Has types.now t → t.named ≤ 256 }
    ensures { IfOk result (λ classes. classes.items ≡ classes_in types.now over) }
{
    match over {
        Simple::Range { low, high } => numbers(alloc, low, high),
        Simple::Enum { .. } => Ok(Vec::new(alloc)),
        Simple::Set { set } => names(alloc, count(types, set)),
    }
}

/// A variable is bound to this place.
pub(crate) fn is_bound_to(view: &View, bindings: &[Spot], var: u16, p: Spot) -> bool
    ensures { result ≡ reads.is_bound_to (slice_get (places view.now bindings.now) var) (place_in view.now p) }
{
    match bindings.get(var as usize) {
        None => false,
        Some(q) => is_same(view.design, *q, p),
    }
}

// An index may lie at a place.
fn may_lie(view: &View, bindings: &[Spot], index: Index, p: Spot) -> bool
    ensures { result ≡ spec.may_lie (places view.now bindings.now) (index_of index) (place_in view.now p) }
{
    match index {
        Index::Fixed { value: None } => false,
        Index::Fixed { value: Some(value) } => is_same(view.design, Spot::Number { value }, p),
        Index::Bare { var } => is_bound_to(view, bindings, var, p),
        Index::Computed => true,
    }
}

// The classes of a type that an index may be.
fn index_classes(
    alloc: Global,
    view: &View,
    bindings: &[Spot],
    x: &FlatExpr,
    over: Simple,
) -> Result<Seq<Class>, AllocError>
    requires view { IsView view.now }
    requires over { IsIndexType over }
    ensures { IfOk result (λ classes. classes ≡ map written_class (index_places (places view.now bindings.now) (flat_index x.now) (named_in (world_of view.now) over))) }
{
    let index = known(x);
    let all = classes_over(alloc, view.types, over)?;
    let mut classes = Vec::new(alloc);
    for class in all.as_slice() {
        if may_lie(view, bindings, index, spot_in(over, *class)) {
            classes.push(*class)?;
        }
    }
    Ok(Seq::from_vec(classes))
}

// All classes of a type.
fn all_classes(alloc: Global, view: &View, over: Simple) -> Result<Seq<Class>, AllocError>
    requires view { IsView view.now }
    requires over { IsIndexType over }
    ensures { IfOk result (λ classes. classes ≡ map written_class (named_in (world_of view.now) over)) }
{
    let classes = classes_over(alloc, view.types, over)?;
    Ok(Seq::from_vec(classes))
}

// Those that an index of a reference may be; a missing one, which no text has, may be any.
fn choice(
    alloc: Global,
    view: &View,
    bindings: &[Spot],
    x: Option<&FlatExpr>,
    over: Simple,
) -> Result<Seq<Class>, AllocError>
    requires view { IsView view.now }
    requires over { IsIndexType over }
    ensures { IfOk result (λ classes. classes ≡ choice_in view.now bindings.now (option_copied x.entry) over) }
{
    match x {
        None => all_classes(alloc, view, over),
        Some(x) => index_classes(alloc, view, bindings, x, over),
    }
}

// The index of a reference at a place.
fn index_at(indexes: &[FlatExpr], place: usize) -> Option<&FlatExpr>
    ensures { option_copied result ≡ slice_get indexes.now place }
{
    indexes.get(place)
}

/// The classes that each index of a reference to a family with indexes of these types may be.
pub fn choices(
    alloc: Global,
    view: &View,
    bindings: &[Spot],
    indexes: &[FlatExpr],
    over: &[Simple],
) -> Result<Vec<Seq<Class>>, AllocError>
    requires view { IsView view.now }
    requires over { (t : Simple) → Has over.now t → IsIndexType t }
    ensures { IfOk result (λ choices. choices.items ≡ choices_in view.now bindings.now indexes.now over.now) }
{
    let mut choices = Vec::new(alloc);
    for place in 0..over.len() {
        let x = index_at(indexes, place);
        let classes = choice(alloc, view, bindings, x, over[place])?;
        choices.push(classes)?;
    }
    Ok(choices)
}

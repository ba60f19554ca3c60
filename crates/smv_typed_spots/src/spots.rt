// Indexes and values as spots.
ghost use Rattle.std.specs.Prelude.{◌≡◌, [], IfOk, slice_get};
ghost use Rattle.law_obligations.specs.Soundness.{over_of};
ghost use Rattle.smv_typed_spots.specs.TypedSpots as spec;

use smv_core::Seq;
use smv_core::flat::{Class, Element, Simple};
use smv_problem::{AbsValue, Problem};
use smv_spots::spots::Spot;
use std::alloc::{AllocError, Global};

// The number of an enumeration or a set type.
fn number_of(over: Simple) -> u16
    ensures { result ≡ spec.number_of over }
{
    match over {
        Simple::Range { .. } => 0,
        Simple::Enum { list } => list,
        Simple::Set { set } => set,
    }
}

/// An index of this type, as a spot.
pub(crate) fn spot_of_class(over: Simple, class: Class) -> Spot
    ensures { result ≡ spec.class_spot over class }
{
    match class {
        Class::Number { value } => Spot::Number {
            value: u16::from(value),
        },
        Class::Named { class } => Spot::Class {
            set: number_of(over),
            class: u16::from(class),
        },
        Class::Rest { gap } => Spot::Rest {
            set: number_of(over),
            rest: u16::from(gap),
        },
    }
}

// Indexes of these types.
fn spots_over(alloc: Global, over: &[Simple], classes: &[Class]) -> Result<Vec<Spot>, AllocError>
    ensures { IfOk result (λ spots. spots.items ≡ spec.class_spots over.now classes.now) }
{
    let mut spots = Vec::new(alloc);
    for (over, class) in over.iter().zip(classes) {
        spots.push(spot_of_class(*over, *class))?;
    }
    Ok(spots)
}

// The types of the indexes of a family; none where the problem has no such family.
fn types_over(problem: &Problem, family: u16) -> &[Simple]
    ensures { result.now ≡ over_of (slice_get problem.entry.now.families family) }
{
    match problem.families.as_slice().get(family as usize) {
        Some(family) => family.over.as_slice(),
        None => &[],
    }
}

/// The indexes of an element, as spots of the types that its family gives them.
pub fn index_spots(
    alloc: Global,
    problem: &Problem,
    element: &Element,
) -> Result<Seq<Spot>, AllocError>
    ensures { IfOk result (λ spots. spots ≡ spec.class_spots (over_of (slice_get problem.entry.now.families element.now.family)) element.now.indexes) }
{
    let over = types_over(problem, element.family);
    let spots = spots_over(alloc, over, element.indexes.as_slice())?;
    Ok(Seq::from_vec(spots))
}

/// A value of this type, as a spot; none where it is Undefined.
pub fn spot_of_value(over: Simple, value: AbsValue) -> Option<Spot>
    ensures { result ≡ spec.value_spot over value }
{
    match value {
        AbsValue::Number { value } => Some(Spot::Number { value }),
        AbsValue::Constant { place } => Some(Spot::Constant {
            list: number_of(over),
            value: place,
        }),
        AbsValue::Named { class } => Some(Spot::Class {
            set: number_of(over),
            class: u16::from(class),
        }),
        AbsValue::Rest { gap } => Some(Spot::Rest {
            set: number_of(over),
            rest: u16::from(gap),
        }),
        AbsValue::Undefined => None,
    }
}

// Where variables and indexes lie.
ghost use Rattle.std.specs.Prelude.{◌≡◌, IfOk, take};
ghost use Rattle.law_obligations.specs.Places.{named_in, places_in};
ghost use Rattle.smv_reads.specs.Views as spec;
ghost use Rattle.smv_reads.specs.Views.{IsView, world_of, places, bind_spot};

use smv_core::abstract_type::AbsType;
use smv_core::flat::{Class, Design, Simple};
use smv_spots::places::{named_over, rests_over};
use smv_spots::spots::Spot;
use std::alloc::{AllocError, Global};

/// A design in a case, by the abstract form of each of its set types.
#[derive(Clone, Copy)]
pub struct View<'a> {
    pub design: &'a Design,
    pub types: &'a [AbsType],
}

/// So many spots from the front.
pub fn first_spots(spots: &[Spot], count: usize) -> &[Spot]
    ensures { result.now ≡ take count spots.now }
{
    &spots[..count.min(spots.len())]
}

/// The variables that are bound, with one more: those from its number on are no longer bound.
pub fn bound(alloc: Global, bindings: &[Spot], var: u16, p: Spot) -> Result<Vec<Spot>, AllocError>
    ensures { IfOk result (λ inner. inner.items ≡ bind_spot bindings.now var p) }
{
    let mut inner = Vec::from_slice(alloc, first_spots(bindings, var as usize))?;
    inner.push(p)?;
    Ok(inner)
}

// The set type of an index.
fn set_of(over: Simple) -> u16
    ensures { result ≡ spec.set_of over }
{
    match over {
        Simple::Set { set } => set,
        Simple::Range { .. } => 0,
        Simple::Enum { .. } => 0,
    }
}

/// A number, a class or a rest of a type.
pub fn spot_in(over: Simple, class: Class) -> Spot
    ensures { result ≡ spec.spot_in over class }
{
    match class {
        Class::Number { value } => Spot::Number {
            value: u16::from(value),
        },
        Class::Named { class } => Spot::Class {
            set: set_of(over),
            class: u16::from(class),
        },
        Class::Rest { gap } => Spot::Rest {
            set: set_of(over),
            rest: u16::from(gap),
        },
    }
}

/// The numbers, constants and classes of a type, which a variable of a quantifier takes.
pub fn spots_named(alloc: Global, view: &View, over: Simple) -> Result<Vec<Spot>, AllocError>
    requires { IsView view.now }
    ensures { IfOk result (λ spots. places view.now spots.items ≡ named_in (world_of view.now) over) }
{
    let spots = named_over(alloc, view.design, view.types, over)?;
    Ok(spots)
}

/// These and the rests of the type, which a variable of a definition takes.
pub fn spots_over(alloc: Global, view: &View, over: Simple) -> Result<Vec<Spot>, AllocError>
    requires { IsView view.now }
    ensures { IfOk result (λ spots. places view.now spots.items ≡ places_in (world_of view.now) over) }
{
    let mut spots = spots_named(alloc, view, over)?;
    let rests = rests_over(alloc, view.types, over)?;
    spots.extend_from_slice(rests.as_slice())?;
    Ok(spots)
}

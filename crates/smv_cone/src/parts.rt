// A case of a leaf, and where its parameters and the indexes of its elements lie.
ghost use Rattle.std.specs.Prelude.{◌≡◌, ◌≤◌, ◌⊎◌, map, IfOk, slice_get, option_copied};
ghost use Rattle.law_obligations.specs.Soundness.{over_of};
ghost use Rattle.law_obligations.specs.Outlines as outlines;
ghost use Rattle.smv_cone.specs.Parts.{spots_in, outline_of, IsPartView};

use smv_chosen::chosen;
use smv_core::flat::{Choice, Class, Def, Design, Element, Leaf, Param, Simple, Unit};
use smv_reads::bindings::{View, spot_in};
use smv_spots::spots::Spot;
use std::alloc::{AllocError, Global};

/// A case of a leaf: its design with the units and the abstract forms of its set types, the leaf and its choice, the classes of the case and where they lie, and the definition that the leaf's proof uses for each family.
#[derive(Clone, Copy)]
pub struct Part<'a> {
    pub view: View<'a>,
    pub units: &'a [Unit],
    pub leaf: &'a Leaf,
    pub choice: &'a Choice,
    pub classes: &'a [Class],
    pub params: &'a [Spot],
    pub table: &'a [Option<&'a Def>],
}

// The smaller of two numbers.
fn fewer(a: usize, b: usize) -> usize
    ensures left { result ≤ a }
    ensures right { result ≤ b }
    ensures one { (result ≡ a) ⊎ (result ≡ b) }
{
    if a < b { a } else { b }
}

// Where these classes of these types lie.
fn spots_of(alloc: Global, over: &[Simple], classes: &[Class]) -> Result<Vec<Spot>, AllocError>
    ensures { IfOk result (λ spots. spots.items ≡ spots_in over.now classes.now) }
{
    let mut spots = Vec::new(alloc);
    let count = fewer(over.len(), classes.len());
    for place in 0..count {
        let spot = spot_in(over[place], classes[place]);
        spots.push(spot)?;
    }
    Ok(spots)
}

// The types of parameters.
fn types_of(alloc: Global, params: &[Param]) -> Result<Vec<Simple>, AllocError>
    ensures { IfOk result (λ types. types.items ≡ map (λ p. p.over) params.now) }
{
    params.iter().map(|p| p.over).collect(alloc)
}

/// Where the parameters of a leaf lie that have these classes.
pub fn parameter_spots(
    alloc: Global,
    params: &[Param],
    classes: &[Class],
) -> Result<Vec<Spot>, AllocError>
    ensures { IfOk result (λ spots. spots.items ≡ spots_in (map (λ p. p.over) params.now) classes.now) }
{
    let over = types_of(alloc, params)?;
    spots_of(alloc, over.as_slice(), classes)
}

/// The types of the indexes of a family; one that is not there has none.
pub fn indexes_of(design: &Design, family: u16) -> &[Simple]
    ensures { result.now ≡ over_of (slice_get design.now.families family) }
{
    match design.families.as_slice().get(family as usize) {
        Some(f) => f.over.as_slice(),
        None => &[],
    }
}

/// Where the indexes of an element lie.
pub(crate) fn own_spots(
    alloc: Global,
    design: &Design,
    x: &Element,
) -> Result<Vec<Spot>, AllocError>
    ensures { IfOk result (λ spots. spots.items ≡ spots_in (over_of (slice_get design.now.families x.now.family)) x.now.indexes) }
{
    spots_of(alloc, indexes_of(design, x.family), x.indexes.as_slice())
}

/// The definition that the leaf's proof uses for a family; none where it is free.
pub fn chosen_in<'a>(part: &Part<'a>, family: u16) -> Option<&'a Def>
    requires { IsPartView part.now }
    ensures { option_copied result ≡ outlines.chosen (outline_of part.now) part.now.choice.now.picks family }
{
    match part.table.get(family as usize) {
        Some(def) => *def,
        None => chosen(
            part.view.design,
            part.units,
            part.choice.picks.as_slice(),
            family,
        ),
    }
}

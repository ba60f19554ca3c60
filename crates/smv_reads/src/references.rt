// The elements that a reference reads.
ghost use Rattle.std.specs.Prelude.{◌≡◌, ◌∷◌, ◌++◌, [], Some, option_copied, slice_get, IfOk, OnOk};
ghost use Rattle.smv_elements.specs.Elements.{put, put_all};
ghost use Rattle.smv_reads.specs.Views.{IsView};
ghost use Rattle.smv_reads.specs.Reading.{elements_from, read_at};

use crate::bindings::View;
use crate::indexes::choices;
use smv_core::Seq;
use smv_core::flat::{Class, Element, Family, FlatExpr};
use smv_elements::Found;
use smv_spots::spots::Spot;
use std::alloc::{AllocError, Global};

// Some classes with one more.
fn longer(alloc: Global, front: &[Class], class: Class) -> Result<Vec<Class>, AllocError>
    ensures { IfOk result (λ longer. longer.items ≡ front.now ++ class ∷ []) }
{
    let mut longer = Vec::from_slice(alloc, front)?;
    longer.push(class)?;
    Ok(longer)
}

// Puts an element of these indexes.
fn put_one(
    alloc: Global,
    found: &mut Found,
    family: u16,
    indexes: &[Class],
) -> Result<(), AllocError>
    ensures { OnOk result (found.new ≡ put found.old (record { family = family; indexes = indexes.now })) }
{
    let indexes = Seq::from_vec(Vec::from_slice(alloc, indexes)?);
    found.put(Element { family, indexes }, alloc)
}

/// Puts the elements of a family whose indexes begin with these classes and go on with one of each of these, in order.
#[cycle(choices)]
fn put_from(
    alloc: Global,
    found: &mut Found,
    family: u16,
    front: &[Class],
    choices: &[Seq<Class>],
) -> Result<(), AllocError>
    ensures { OnOk result (found.new ≡ put_all found.old (elements_from family front.now choices.now)) }
{
    match choices {
        [] => put_one(alloc, found, family, front),
        [classes, more @ ..] => put_each(alloc, found, family, front, classes.as_slice(), more),
    }
}

#[cycle(choices)]
fn put_each(
    alloc: Global,
    found: &mut Found,
    family: u16,
    front: &[Class],
    classes: &[Class],
    more: &[Seq<Class>],
) -> Result<(), AllocError>
    ensures { OnOk result (found.new ≡ put_all found.old (elements_from family front.now (classes.now ∷ more.now))) }
{
    for class in classes {
        let begun = longer(alloc, front, *class)?;
        put_from(alloc, found, family, begun.as_slice(), more)?;
    }
    Ok(())
}

// The family of a number.
fn family_at<'a>(view: &View<'a>, family: u16) -> Option<&'a Family>
    ensures { option_copied result ≡ slice_get view.now.design.now.families family }
{
    view.design.families.as_slice().get(family as usize)
}

// Puts the elements of a family that a reference reads.
fn put_of_family(
    alloc: Global,
    view: &View,
    found: &mut Found,
    bindings: &[Spot],
    family: u16,
    f: &Family,
    indexes: &[FlatExpr],
) -> Result<(), AllocError>
    requires view { IsView view.now }
    requires there { slice_get view.now.design.now.families family ≡ Some f.now }
    ensures { OnOk result (found.new ≡ put_all found.old (read_at view.now bindings.now family indexes.now)) }
{
    let over = f.over.as_slice();
    let choices = choices(alloc, view, bindings, indexes, over)?;
    let listed = choices.as_slice();
    put_from(alloc, found, family, &[], listed)
}

/// Puts the elements that a reference reads.
pub(crate) fn put_reference(
    alloc: Global,
    view: &View,
    found: &mut Found,
    bindings: &[Spot],
    family: u16,
    indexes: &[FlatExpr],
) -> Result<(), AllocError>
    requires { IsView view.now }
    ensures { OnOk result (found.new ≡ put_all found.old (read_at view.now bindings.now family indexes.now)) }
{
    match family_at(view, family) {
        None => Ok(()),
        Some(f) => put_of_family(alloc, view, found, bindings, family, f, indexes),
    }
}

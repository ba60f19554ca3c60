// The search for a cone.
ghost use Rattle.std.specs.Prelude.{◌≡◌, ◌<◌, ◌+◌, false, length, IfOk, OnOk};
ghost use Rattle.smv_elements.specs.Elements.{is_full, put_all};
ghost use Rattle.smv_cone.specs.Parts.{IsPartView};
ghost use Rattle.smv_cone.specs.Searching as spec;
ghost use Rattle.smv_cone.specs.Searching.{HasLeast, HasFound};

use crate::begin::read_first;
use crate::parts::{Part, chosen_in, own_spots};
use smv_elements::Found;
use smv_reads::read_definition;
use smv_spots::spots::Spot;
use std::alloc::{AllocError, Global};

// What the chosen definition of an element reads, by its family and where its indexes lie.
fn read_next(
    alloc: Global,
    part: &Part,
    found: &mut Found,
    family: u16,
    own: &[Spot],
) -> Result<(), AllocError>
    requires { IsPartView part.now }
    ensures { OnOk result (found.new ≡ put_all found.old (spec.read_next part.now family own.now)) }
{
    match chosen_in(part, family) {
        None => Ok(()),
        Some(def) => read_definition(alloc, &part.view, found, own, def),
    }
}

// Goes on from the element at a place.
fn go_on(alloc: Global, part: &Part, found: &mut Found, turn: usize) -> Result<(), AllocError>
    requires view { IsPartView part.now }
    requires least { HasLeast part.now }
    requires turn { turn < length found.old }
    requires few { is_full found.old ≡ false }
    requires found { HasFound part.now found.old turn }
    ensures { OnOk result (HasFound part.now found.new (turn + 1)) }
{
    let elements = found.as_slice();
    let x = &elements[turn];
    let family = x.family;
    let own = own_spots(alloc, part.view.design, x)?;
    let spots = own.as_slice();
    read_next(alloc, part, found, family, spots)
}

// Goes on from each element, as long as there are few.
fn go_on_from_each(alloc: Global, part: &Part, found: &mut Found) -> Result<(), AllocError>
    requires view { IsPartView part.now }
    requires least { HasLeast part.now }
    requires found { HasFound part.now found.old 0 }
    ensures { OnOk result (HasFound part.now found.new (length found.new)) }
{
    let mut turn = 0;
    while turn < found.len() {
        if found.is_full() {
            return Ok(());
        }
        go_on(alloc, part, found, turn)?;
        turn += 1;
    }
    Ok(())
}

/// All that a search finds, or more elements than a case may have bits.
pub fn search(alloc: Global, part: &Part) -> Result<Found, AllocError>
    requires view { IsPartView part.now }
    requires least { HasLeast part.now }
    ensures { IfOk result (λ found. HasFound part.now found (length found)) }
{
    let mut found = Found::new(alloc);
    read_first(alloc, part, &mut found)?;
    go_on_from_each(alloc, part, &mut found)?;
    Ok(found)
}

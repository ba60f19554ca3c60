// The cone of a case.
ghost use Rattle.std.specs.Prelude.{◌≡◌, map, length, IfOk};
ghost use Rattle.law_obligations.specs.Units.{units_of};
ghost use Rattle.law_problems.specs.Parts.{outlined, IsPart, IsCaseOf, cone_with, width_fault, Refuses};
ghost use Rattle.smv_chosen_table.specs.Tables.{IsTable};
ghost use Rattle.smv_problem.specs.Written.{written_element};
ghost use Rattle.smv_cone.specs.Parts.{IsPartView, IsPartOf};
ghost use Rattle.smv_cone.specs.Searching.{HasLeast, HasFound, IsConeOf};

use crate::bits::{are_few, list_lengths};
use crate::parts::{Part, parameter_spots};
use crate::search::search;
use smv_cases::{abs_types, fault_at_unit};
use smv_core::flat::{Case, Choice, Def, Design, Element, Leaf, Unit};
use smv_core::{Refusal, Seq};
use smv_elements::Found;
use smv_reads::bindings::View;
use std::alloc::{AllocError, Global};

// What a search found, in order; none where it has too many bits.
fn in_order(alloc: Global, part: &Part, found: Found) -> Result<Option<Seq<Element>>, AllocError>
    requires view { IsPartView part.now }
    requires least { HasLeast part.now }
    requires found { HasFound part.now found (length found) }
    ensures { IfOk result (λ cone. IsConeOf part.now cone) }
{
    let full = found.is_full();
    if full {
        return Ok(None);
    }
    let families = part.view.design.families.as_slice();
    let lists = list_lengths(alloc, part.view.design)?;
    let counts = lists.as_slice();
    let elements = found.as_slice();
    let few = are_few(families, counts, part.view.types, elements);
    if few {
        let sorted = found.into_sorted();
        Ok(Some(Seq::from_vec(sorted)))
    } else {
        Ok(None)
    }
}

/// The elements of a cone in family order and then by their indexes; none where they have more than 1,024 bits. For any part whose cone is the least set that its search begins with and goes on to.
pub fn cone_of(alloc: Global, part: &Part) -> Result<Option<Seq<Element>>, AllocError>
    requires view { IsPartView part.now }
    requires least { HasLeast part.now }
    ensures { IfOk result (λ cone. IsConeOf part.now cone) }
{
    let found = search(alloc, part)?;
    in_order(alloc, part, found)
}

/// The same, or the fault.
pub fn cone_in(alloc: Global, part: &Part) -> Result<Seq<Element>, Refusal>
    requires { IsPartOf part.now }
    ensures elements { IfOk result (λ elements. elements ≡ map written_element (cone_with part.now.view.design.now part.now.leaf.now part.now.choice.now part.now.classes.now)) }
    ensures refuses { Refuses (width_fault part.now.view.design.now part.now.leaf.now part.now.choice.now part.now.classes.now) result }
{
    let cone = cone_of(alloc, part)?;
    match cone {
        Some(elements) => Ok(elements),
        None => {
            let fault = fault_at_unit(30, part.view.design, part.units, part.leaf);
            Err(Refusal::Fault(fault))
        }
    }
}

/// The elements of a case's cone in family order and then by their indexes, or fault 30 at the unit of the leaf where they have more than 1,024 bits. The units are those of the design, and the table has what the leaf's proof uses.
pub fn cone(
    alloc: Global,
    design: &Design,
    units: &[Unit],
    leaf: &Leaf,
    case: &Case,
    choice: &Choice,
    table: &[Option<&Def>],
) -> Result<Seq<Element>, Refusal>
    requires units { units.now ≡ units_of design.now }
    requires part { IsPart design.now leaf.now choice.now }
    requires case { IsCaseOf design.now leaf.now choice.now case.now.classes }
    requires table { IsTable (outlined design.now) choice.now.picks table.now }
    ensures elements { IfOk result (λ elements. elements ≡ map written_element (cone_with design.now leaf.now choice.now case.now.classes)) }
    ensures refuses { Refuses (width_fault design.now leaf.now choice.now case.now.classes) result }
{
    let types = abs_types(alloc, design, case, choice, leaf)?;
    let forms = types.as_slice();
    let classes = case.classes.as_slice();
    let over = leaf.params.as_slice();
    let params = parameter_spots(alloc, over, classes)?;
    let spots = params.as_slice();
    let part = Part {
        view: View {
            design,
            types: forms,
        },
        units,
        leaf,
        choice,
        classes,
        params: spots,
        table,
    };
    cone_in(alloc, &part)
}

// Laws of left sides, each the contract of a function that does nothing.
ghost use Rattle.std.specs.Prelude.{◌≡◌, All, None, true};
ghost use Rattle.smv_core.specs.declared.tree.Text.{Text};
ghost use Rattle.law_designs.specs.Flattening.{flatten};
ghost use Rattle.smv_mentions.specs.FirstFault.{first_fault};
ghost use Rattle.law_designs.specs.WellKinded.{IsWellKinded};
ghost use Rattle.law_designs.specs.Definitions.{design_of_flat_text};
ghost use Rattle.law_designs.specs.Laws.{left_sides_are_whole};
ghost use Rattle.law_designs.specs.SingleFaults.{first_fault_of_single};
ghost use Rattle.law_sound_texts.specs.Placed.{IsFree, OneValueGives};
ghost use Rattle.law_designs.specs.FirstFault.{first_fault_of_design};
ghost use Rattle.law_sound_texts.specs.Extension.{FlatTextHasWholeLeftSides};
ghost use Rattle.law_sound_texts.specs.TextExtension.{KeepsTextBehaviours, LayersAreSame};
ghost use Rattle.law_obligations.specs.Covers.{AreApart};
ghost use Rattle.law_sound_texts.specs.Exact.{DefinitionsAreFree, LeftSidesAreExact};

use crate::conflicts::{
    definitions_have_no_conflict, flattened_texts_are_placed, one_value_gives_a_result,
};
use crate::extension::text_behaviours_are_kept;
use law_designs::flattening::families_are_the_same;
use law_designs::well_kinded::left_sides_lead_to_families;
use law_flat_kinds::families_are_found;

/// In the flattened text of each text that is spelled and has no fault of names, size and kinds each assignment is to a family, with an index for each of its index
/// types.
pub fn left_sides_are_exact()
    ensures { (text : Text) → IsWellKinded text → LeftSidesAreExact (flatten text) }
{
    left_sides_lead_to_families();
    families_are_found();
    families_are_the_same();
}

/// So none has more.
pub fn left_sides_have_no_more()
    ensures { (text : Text) → IsWellKinded text → left_sides_are_whole (flatten text) ≡ true }
{
    left_sides_are_exact();
}

/// And none has fewer.
pub fn left_sides_have_no_fewer()
    ensures { (text : Text) → IsWellKinded text → FlatTextHasWholeLeftSides (flatten text) }
{
    left_sides_are_exact();
}

/// Where such a text has no fault of single assignment, no two assignments of a definition of its design conflict.
pub fn text_definitions_have_no_conflict()
    ensures { (text : Text) → IsWellKinded text → first_fault_of_single (flatten text) ≡ None → All (IsFree (flatten text)) (design_of_flat_text (flatten text)).defs }
{
    left_sides_have_no_more();
    flattened_texts_are_placed();
    definitions_have_no_conflict();
}

/// And at most one value of each `forall` variable of a definition gives an element a result.
pub fn one_value_gives_a_text_result()
    ensures { (text : Text) → IsWellKinded text → first_fault_of_single (flatten text) ≡ None → All (OneValueGives (flatten text)) (design_of_flat_text (flatten text)).defs }
{
    left_sides_have_no_more();
    flattened_texts_are_placed();
    one_value_gives_a_result();
}

/// So each definition is one of a family, and no two of its assignments conflict, as the soundness of the search asks of it.
pub fn definitions_are_of_families()
    ensures { (text : Text) → IsWellKinded text → first_fault_of_single (flatten text) ≡ None → DefinitionsAreFree (design_of_flat_text (flatten text)) }
{
    left_sides_are_exact();
    text_definitions_have_no_conflict();
}

/// Where such a text has no fault of loops and layers, its abstract signals take no behaviour from the implementation, where the layer that defines an abstract signal
/// first is that of its base definition in the design.
pub fn well_kinded_behaviours_are_kept()
    ensures { (text : Text) → IsWellKinded text → first_fault_of_design (design_of_flat_text (flatten text)) ≡ None → LayersAreSame text → KeepsTextBehaviours text }
{
    left_sides_have_no_fewer();
    text_behaviours_are_kept();
}

/// No two set types of the design of a text without a fault of names and size have one name.
pub fn set_types_are_apart()
    ensures { (text : Text) → first_fault text ≡ None → AreApart (design_of_flat_text (flatten text)).sets }
{}

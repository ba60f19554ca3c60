// Laws of designs that are made from flattened texts which keep the rules of kinds, each the contract of a function that does nothing.
ghost use Rattle.std.specs.Prelude.{◌≡◌, None, true};
ghost use Rattle.smv_core.specs.declared.flat.FlatText.{FlatText};
ghost use Rattle.smv_core.specs.declared.tree.Text.{Text};
ghost use Rattle.law_designs.specs.Flattening.{flatten};
ghost use Rattle.law_designs.specs.WellKinded.{IsWellKinded};
ghost use Rattle.law_designs.specs.FlatKinds.{is_kinded};
ghost use Rattle.law_designs.specs.Definitions.{design_of_flat_text};
ghost use Rattle.law_designs.specs.SingleFaults.{first_fault_of_single};
ghost use Rattle.law_obligations.specs.Checked.{IsChecked};
ghost use Rattle.law_obligations.specs.Outlines.{Script};
ghost use Rattle.law_sound_texts.specs.Extension.{AreFilled};
ghost use Rattle.law_sound_texts.specs.Whole.{ReadsWholeInClaims, ReadsWholeInDefinitions, HasDefinitions, HasSplits};

use crate::left_sides::{definitions_are_of_families, set_types_are_apart};
use law_flat_kinds::flattened_texts_are_kinded;

/// Where a flattened text keeps the rules of kinds, no family of its design has a type without values.
pub fn families_are_filled()
    ensures { (flat_text : FlatText) → is_kinded flat_text ≡ true → AreFilled (design_of_flat_text flat_text) }
{}

/// Each claim of its design reads each element with an index for each of the element's index types.
pub fn claims_read_whole_elements()
    ensures { (flat_text : FlatText) → is_kinded flat_text ≡ true → ReadsWholeInClaims (design_of_flat_text flat_text) }
{}

/// So does each definition.
pub fn definitions_read_whole_elements()
    ensures { (flat_text : FlatText) → is_kinded flat_text ≡ true → ReadsWholeInDefinitions (design_of_flat_text flat_text) }
{}

/// In each script of the design of a text that is spelled and has no fault of names, size, kinds and single assignment each definition is one of a family, no two of
/// its assignments conflict, and it reads whole elements.
pub fn definitions_are_as_asked()
    ensures { (text : Text) → IsWellKinded text → first_fault_of_single (flatten text) ≡ None → (s : Script) → s.design ≡ design_of_flat_text (flatten text) → HasDefinitions s }
{
    definitions_are_of_families();
    definitions_read_whole_elements();
    flattened_texts_are_kinded();
}

/// So such a script is as the soundness of the search asks, where the leaf of each unit has the parameters and guards of its splits.
pub fn scripts_are_checked()
    ensures { (text : Text) → IsWellKinded text → first_fault_of_single (flatten text) ≡ None → (s : Script) → s.design ≡ design_of_flat_text (flatten text) → HasSplits s → IsChecked s }
{
    set_types_are_apart();
    flattened_texts_are_kinded();
    families_are_filled();
    claims_read_whole_elements();
    definitions_are_as_asked();
}

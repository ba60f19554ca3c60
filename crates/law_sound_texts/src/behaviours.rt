// Laws of the behaviours and runs of texts, each the contract of a function that does nothing.
ghost use Rattle.std.specs.Prelude.{◌≡◌, None};
ghost use Rattle.smv_core.specs.declared.tree.Text.{Text};
ghost use Rattle.smv_mentions.specs.FirstFault.{first_fault};
ghost use Rattle.law_designs.specs.Flattening.{flatten};
ghost use Rattle.law_designs.specs.WellKinded.{IsWellKinded};
ghost use Rattle.law_designs.specs.Definitions.{design_of_flat_text};
ghost use Rattle.law_designs.specs.FirstFault.{first_fault_of_design, first_fault_of_layers};
ghost use Rattle.law_sound_texts.specs.TextExtension.{KeepsTextBehaviours, LayersAreSame};
ghost use Rattle.law_sound_texts.specs.TextRuns.{HasTextRuns};
ghost use Rattle.law_sound_texts.specs.WorkedText.{RunsAreOfTheFirst, TakesTheFirst};

use crate::checked_scripts::families_are_filled;
use crate::extension::{left_sides_stay_whole, runs_exist};
use crate::left_sides::{left_sides_have_no_fewer, well_kinded_behaviours_are_kept};
use law_designs::flattening::{families_are_the_same, statements_are_the_same};
use law_designs::single_assignment::{
    definitions_allow_as_the_text, definitions_are_in_order, what_has_no_definition_is_free,
};
use law_designs::well_kinded::{
    allowed_values_are_the_same, expressions_are_right, spelled_texts_are_written,
};
use law_flat_kinds::{families_are_found, flattened_texts_are_kinded};

/// In a text without a fault of names, size and layers the layer that defines an abstract signal first is that of its base definition in the design.
pub fn layers_are_same()
    ensures { (text : Text) → first_fault text ≡ None → first_fault_of_layers (design_of_flat_text (flatten text)) ≡ None → LayersAreSame text }
{
    families_are_the_same();
    families_are_found();
    statements_are_the_same();
    definitions_are_in_order();
}

/// In a text that is spelled and has no fault of names, size, kinds, loops and layers the abstract signals take no behaviour from the implementation.
pub fn behaviours_of_texts_are_kept()
    ensures { (text : Text) → IsWellKinded text → first_fault_of_design (design_of_flat_text (flatten text)) ≡ None → KeepsTextBehaviours text }
{
    layers_are_same();
    well_kinded_behaviours_are_kept();
}

/// And it has runs of each length from 1 on, at all sizes.
pub fn texts_have_runs()
    ensures { (text : Text) → IsWellKinded text → first_fault_of_design (design_of_flat_text (flatten text)) ≡ None → HasTextRuns text }
{
    layers_are_same();
    flattened_texts_are_kinded();
    families_are_filled();
    left_sides_have_no_fewer();
    left_sides_stay_whole();
    runs_exist();
    families_are_the_same();
    families_are_found();
    spelled_texts_are_written();
    expressions_are_right();
    definitions_allow_as_the_text();
    what_has_no_definition_is_free();
    allowed_values_are_the_same();
}

/// Of two layers that define an abstract signal the one that stands first in the text gives its base definition, and runs keep to that.
pub fn worked_text()
    ensures base_definitions { TakesTheFirst }
    ensures runs { RunsAreOfTheFirst }
{}

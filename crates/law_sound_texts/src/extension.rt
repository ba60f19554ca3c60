// Laws of what a design adds to its implementation, each the contract of a function that does nothing.
ghost use Rattle.std.specs.Prelude.{◌≡◌, None};
ghost use Rattle.smv_core.specs.declared.flat.Design.{Design};
ghost use Rattle.smv_core.specs.declared.flat.FlatText.{FlatText};
ghost use Rattle.smv_core.specs.declared.tree.Text.{Text};
ghost use Rattle.law_designs.specs.Flattening.{flatten};
ghost use Rattle.law_designs.specs.WellKinded.{IsWellKinded};
ghost use Rattle.law_designs.specs.Definitions.{design_of_flat_text};
ghost use Rattle.law_designs.specs.FirstFault.{first_fault_of_design};
ghost use Rattle.law_sound_texts.specs.Extension.{AreFilled, ElementsCanBeChosen, HasRuns, HasWholeLeftSides, KeepsBehaviours, FlatTextHasWholeLeftSides};
ghost use Rattle.law_sound_texts.specs.TextExtension.{KeepsTextBehaviours, LayersAreSame};

use law_designs::flattening::families_are_the_same;
use law_designs::loops_and_layers::orders_show_no_cycle;
use law_designs::single_assignment::{
    definitions_allow_as_the_text, what_has_no_definition_is_free,
};
use law_designs::well_kinded::{
    allowed_values_are_the_same, expressions_are_right, spelled_texts_are_written,
};
use law_flat_kinds::families_are_found;

/// In a design without a fault of loops or of layers whose left sides are whole any elements can be chosen after each state: there is a next state with values that their base definitions allow, and with
/// the values of all other elements as they are given.
pub fn elements_are_chosen()
    ensures { (d : Design) → first_fault_of_design d ≡ None → HasWholeLeftSides d → ElementsCanBeChosen d }
{
    orders_show_no_cycle();
}

/// In such a design the abstract signals take no behaviour from the implementation: each is in a run,
/// at any sizes.
pub fn behaviours_are_kept()
    ensures { (d : Design) → first_fault_of_design d ≡ None → HasWholeLeftSides d → KeepsBehaviours d }
{
    orders_show_no_cycle();
}

/// And there are runs of each length, where the types of the families are not empty.
pub fn runs_exist()
    ensures { (d : Design) → first_fault_of_design d ≡ None → HasWholeLeftSides d → AreFilled d → HasRuns d }
{
    orders_show_no_cycle();
}

/// The left sides of a design are whole where those of the flattened text are from which it is made.
pub fn left_sides_stay_whole()
    ensures { (flat_text : FlatText) → FlatTextHasWholeLeftSides flat_text → HasWholeLeftSides (design_of_flat_text flat_text) }
{}

/// So it is for texts: in a text that is spelled and has no fault of names, size, kinds, loops and layers the abstract signals take no behaviour from the
/// implementation, where the layer that defines an abstract signal first is that of its base definition in the design.
pub fn text_behaviours_are_kept()
    ensures { (text : Text) → IsWellKinded text → first_fault_of_design (design_of_flat_text (flatten text)) ≡ None → FlatTextHasWholeLeftSides (flatten text) → LayersAreSame text → KeepsTextBehaviours text }
{
    behaviours_are_kept();
    left_sides_stay_whole();
    families_are_found();
    families_are_the_same();
    allowed_values_are_the_same();
    expressions_are_right();
    spelled_texts_are_written();
    definitions_allow_as_the_text();
    what_has_no_definition_is_free();
}

// Laws of texts and their designs, each the contract of a function that does nothing.
ghost use Rattle.std.specs.Prelude.{◌≡◌, None};
ghost use Rattle.smv_core.specs.Sound.{IsSound};
ghost use Rattle.smv_core.specs.declared.tree.Text.{Text};
ghost use Rattle.law_designs.specs.Flattening.{flatten};
ghost use Rattle.law_designs.specs.WellKinded.{IsWellKinded};
ghost use Rattle.law_designs.specs.Definitions.{design_of_flat_text};
ghost use Rattle.law_designs.specs.SingleFaults.{first_fault_of_single};
ghost use Rattle.law_obligations.specs.Outlines.{Script, outline_of};
ghost use Rattle.law_obligations.specs.Checked as script;
ghost use Rattle.law_designs.specs.FirstFault.{first_fault_of_design};
ghost use Rattle.law_sound_texts.specs.Carried.{HasProof, RunsAreCarried, RunsAreCarriedBack, UnitsHold, outlined};
ghost use Rattle.law_sound_texts.specs.WorkedTexts.{HasOneMap, HoldsInBoth, HoldsInNeither};

use crate::behaviours::layers_are_same;
use crate::checked_scripts::scripts_are_checked;
use crate::left_sides::left_sides_are_exact;
use law_designs::flattening::{families_are_the_same, statements_are_the_same};
use law_designs::single_assignment::{
    definitions_allow_as_the_text, what_has_no_definition_is_free,
};
use law_designs::well_kinded::{
    allowed_values_are_the_same, claims_are_the_same, expressions_are_right,
    spelled_texts_are_written,
};
use law_flat_kinds::families_are_found;
use law_obligations::obligations::proved_is_sound;

/// Each run of a text that is spelled and has no fault of names, size, kinds, loops and layers is a run of its design.
pub fn runs_of_texts_are_runs_of_designs()
    ensures { (text : Text) → IsWellKinded text → first_fault_of_design (design_of_flat_text (flatten text)) ≡ None → RunsAreCarried text }
{
    layers_are_same();
    families_are_the_same();
    families_are_found();
    spelled_texts_are_written();
    expressions_are_right();
    definitions_allow_as_the_text();
}

/// And each run of its design that is not empty is one of the text.
pub fn runs_of_designs_are_runs_of_texts()
    ensures { (text : Text) → IsWellKinded text → first_fault_of_design (design_of_flat_text (flatten text)) ≡ None → RunsAreCarriedBack text }
{
    layers_are_same();
    families_are_the_same();
    families_are_found();
    spelled_texts_are_written();
    expressions_are_right();
    definitions_allow_as_the_text();
    what_has_no_definition_is_free();
    allowed_values_are_the_same();
}

/// So each unit of the text holds at each time of each of its runs, for all sizes, where each unit of the design does.
pub fn sound_designs_are_sound_texts()
    ensures { (text : Text) → IsWellKinded text → first_fault_of_design (design_of_flat_text (flatten text)) ≡ None → UnitsHold (design_of_flat_text (flatten text)) → IsSound text }
{
    runs_of_texts_are_runs_of_designs();
    families_are_the_same();
    families_are_found();
    spelled_texts_are_written();
    expressions_are_right();
    definitions_allow_as_the_text();
    what_has_no_definition_is_free();
    allowed_values_are_the_same();
    claims_are_the_same();
}

/// And each unit of the design holds, where each unit of the text does.
pub fn sound_texts_are_sound_designs()
    ensures { (text : Text) → IsWellKinded text → first_fault_of_design (design_of_flat_text (flatten text)) ≡ None → IsSound text → UnitsHold (design_of_flat_text (flatten text)) }
{
    runs_of_designs_are_runs_of_texts();
    layers_are_same();
    left_sides_are_exact();
    families_are_the_same();
    families_are_found();
    statements_are_the_same();
    spelled_texts_are_written();
    expressions_are_right();
    definitions_allow_as_the_text();
    claims_are_the_same();
}

/// A text is sound where a script of its design with all the units is.
pub fn sound_scripts_are_sound_texts()
    ensures { (text : Text) → IsWellKinded text → first_fault_of_design (design_of_flat_text (flatten text)) ≡ None → (s : Script) → outline_of s ≡ outlined (design_of_flat_text (flatten text)) → script.IsSoundScript s → IsSound text }
{
    sound_designs_are_sound_texts();
}

/// And where the text has no fault of single assignment either and its design has a proof: a leaf and a choice for each unit, and no case of a leaf has a violating
/// path.
pub fn proved_texts_are_sound()
    ensures { (text : Text) → IsWellKinded text → first_fault_of_single (flatten text) ≡ None → first_fault_of_design (design_of_flat_text (flatten text)) ≡ None → HasProof (design_of_flat_text (flatten text)) → IsSound text }
{
    sound_designs_are_sound_texts();
    scripts_are_checked();
    proved_is_sound();
}

/// Of two layers that define an abstract signal the second is the one unit of the text and of its design. Where it says another value than the first it holds in neither,
/// and where it says the same value in both.
pub fn worked_texts()
    ensures units { HasOneMap }
    ensures differing { HoldsInNeither }
    ensures agreeing { HoldsInBoth }
{}

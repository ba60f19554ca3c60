//! Flattening keeps the rules of kinds: the law of `flattened_texts_are_kinded`, and that each family is found by its path.
//!
//! For the pass over kinds (`smv_typing`), whose answer carries it, and for the laws of whole texts. It stands on the definitions of flattening and of kinds alone (`law_designs`).
#![tactic(auto)]

ghost use Rattle.std.specs.Prelude.{◌≡◌, None, true};
ghost use Rattle.smv_core.specs.declared.tree.Text.{Text};
ghost use Rattle.smv_mentions.specs.FirstFault.{first_fault};
ghost use Rattle.law_designs.specs.Flattening.{flatten};
ghost use Rattle.law_designs.specs.WellKinded.{IsWellKinded};
ghost use Rattle.law_designs.specs.FlatKinds.{is_kinded};
ghost use Rattle.law_flat_kinds.specs.FamiliesFound.{FamiliesAreFound};

use law_designs::depth::families_are_deep_enough;

/// In a text without a fault of names or size each family is found by its path, in the text and in the flattened text: no two have one path.
pub fn families_are_found()
    ensures { (text : Text) → first_fault text ≡ None → FamiliesAreFound text }
{}

/// In the flattened text of each text without a fault of names, size and kinds no part breaks a rule of kinds, ranges and sets.
pub fn flattened_texts_are_kinded()
    ensures { (text : Text) → IsWellKinded text → is_kinded (flatten text) ≡ true }
{
    families_are_found();
    families_are_deep_enough();
}

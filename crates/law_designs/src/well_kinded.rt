// Laws of texts without faults, each the contract of a function that does nothing.
ghost use Rattle.std.specs.Prelude.{◌≡◌, ℕ, [], None, Option, Some};
ghost use Rattle.std.specs.List.{AllZip};
ghost use Rattle.smv_core.specs.Values.{Name, Sizes};
ghost use Rattle.smv_core.specs.Types.{Family};
ghost use Rattle.smv_core.specs.FlatOrder.{design_of};
ghost use Rattle.smv_core.specs.Outcome.{State, family_at};
ghost use Rattle.smv_core.specs.Walk.{Element};
ghost use Rattle.smv_core.specs.Allowed.{allowed, every_value, walk_set};
ghost use Rattle.smv_core.specs.FlatMeaning.{FlatState};
ghost use Rattle.smv_core.specs.Notation.{Tokens};
ghost use Rattle.smv_core.specs.Spelling.{Spells};
ghost use Rattle.smv_core.specs.declared.tree.Kind.{Kind};
ghost use Rattle.smv_core.specs.declared.tree.Text.{Text};
ghost use Rattle.smv_mentions.specs.FirstFault.{first_fault};
ghost use Rattle.law_designs.specs.KindFaults.{first_fault_of_kinds};
ghost use Rattle.law_designs.specs.Flattening.{flatten, scope_in};
ghost use Rattle.law_designs.specs.Agreement.{AreSameStates, flat_element};
ghost use Rattle.law_designs.specs.FlatTextAllowed.{AreSameBefore, flat_text_allowed};
ghost use Rattle.law_designs.specs.WholeText.{IsSameClaim, TextIsRight, claims_met, claims_of, flat_text_walk};
ghost use Rattle.law_designs.specs.LeftSides.{TextLeads};
ghost use Rattle.law_designs.specs.Written.{TextIsWritten};
ghost use Rattle.law_designs.specs.WellKinded.{IsWellKinded};

use crate::depth::families_are_deep_enough;

/// The tree of each text that tokens spell is as the grammar has it.
pub fn spelled_texts_are_written()
    ensures { (n : ℕ) (tokens : Tokens) (text : Text) → Spells n tokens text → TextIsWritten text }
{}

/// In a tree that is as the grammar has it and that has no fault of names, size and kinds each statement and claim is right.
pub fn expressions_are_right()
    ensures { (text : Text) → TextIsWritten text → first_fault text ≡ None → first_fault_of_kinds text ≡ None → TextIsRight text }
{}

/// In each text without a fault of names, size and kinds the statements outside layers, or those of a layer, give each element of each family in the flattened text
/// what they give it in the text.
pub fn definition_sets_are_the_same()
    ensures { (text : Text) → IsWellKinded text → (sizes : Sizes) (s : State) (t : FlatState) → AreSameStates (design_of text).families s t →
        (layer : Option Name) (kind : Kind) (x : Element) (f : Family) → family_at (design_of text).families x.path ≡ Some f →
        flat_text_walk (flatten text) sizes t layer (flat_element (scope_in text []) x) (every_value (design_of text) sizes x) kind ≡ walk_set (design_of text) sizes layer x kind s }
{}

/// The flattened text of each such text allows each element of each family, in a layer or outside layers, the values that the text allows it.
pub fn allowed_values_are_the_same()
    ensures { (text : Text) → IsWellKinded text → (sizes : Sizes) (layer : Option Name) (x : Element) (f : Family) → family_at (design_of text).families x.path ≡ Some f →
        (before : Option State) (flat_before : Option FlatState) → AreSameBefore (design_of text).families before flat_before → (now : State) (flat_now : FlatState) → AreSameStates (design_of text).families now flat_now →
        flat_text_allowed (flatten text) sizes layer (flat_element (scope_in text []) x) (every_value (design_of text) sizes x) flat_before flat_now ≡ allowed (design_of text) sizes layer x before now }
{}

/// The claims of the flattened text of each such text are those of the text, one for one.
pub fn claims_are_the_same()
    ensures { (text : Text) → IsWellKinded text → (sizes : Sizes) (s : State) (t : FlatState) → AreSameStates (design_of text).families s t →
        AllZip (IsSameClaim text sizes s t) (claims_of (flatten text).items) (claims_met (design_of text).met) }
{}

/// In each such text each left side leads to a family, with an index for each of its index types.
pub fn left_sides_lead_to_families()
    ensures { (text : Text) → IsWellKinded text → TextLeads text }
{
    families_are_deep_enough();
}

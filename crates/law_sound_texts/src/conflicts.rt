// Laws of conflicts, each the contract of a function that does nothing.
ghost use Rattle.std.specs.Prelude.{◌≡◌, All, None, true};
ghost use Rattle.smv_core.specs.declared.tree.Text.{Text};
ghost use Rattle.smv_core.specs.declared.flat.FlatText.{FlatText};
ghost use Rattle.law_designs.specs.Flattening.{flatten};
ghost use Rattle.law_designs.specs.Definitions.{design_of_flat_text};
ghost use Rattle.law_designs.specs.Laws.{left_sides_are_whole};
ghost use Rattle.law_designs.specs.SingleFaults.{first_fault_of_single};
ghost use Rattle.law_sound_texts.specs.Placed.{IsFree, OneValueGives, FlatTextIsPlaced};

/// In a flattened text without a fault of single assignment no two assignments of a definition conflict, and each has the variables around it as indexes of their own.
pub fn definitions_have_no_conflict()
    ensures { (flat_text : FlatText) → FlatTextIsPlaced flat_text → first_fault_of_single flat_text ≡ None → All (IsFree flat_text) (design_of_flat_text flat_text).defs }
{}

/// So at most one value of each `forall` variable of a definition gives an element a result.
pub fn one_value_gives_a_result()
    ensures { (flat_text : FlatText) → FlatTextIsPlaced flat_text → first_fault_of_single flat_text ≡ None → All (OneValueGives flat_text) (design_of_flat_text flat_text).defs }
{}

/// A text is flattened so that each `forall` has the number of those around it; so the laws above speak of each flattened text whose left sides have no more indexes
/// than their families.
pub fn flattened_texts_are_placed()
    ensures { (text : Text) → left_sides_are_whole (flatten text) ≡ true → FlatTextIsPlaced (flatten text) }
{}

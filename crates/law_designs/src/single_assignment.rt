// Laws of definitions, each the contract of a function that does nothing.
ghost use Rattle.std.specs.Prelude.{◌≡◌, All, None};
ghost use Rattle.smv_core.specs.declared.tree.Text.{Text};
ghost use Rattle.smv_core.specs.declared.flat.FlatText.{FlatText};
ghost use Rattle.smv_mentions.specs.FirstFault.{first_fault};
ghost use Rattle.law_designs.specs.Flattening.{flatten};
ghost use Rattle.law_designs.specs.WholeText.{TextIsRight};
ghost use Rattle.law_designs.specs.Definitions.{design_of_flat_text};
ghost use Rattle.law_designs.specs.Laws.{AllowsAsTheText, AllowsTheSame, AreApart, AreInOrder, IsFreeWithout};

/// Each definition of a design allows each element of its family, at all sizes and in all states, the values that the flattened text allows it in the definition's
/// layer, or outside layers.
pub fn definitions_allow_the_same()
    ensures { (flat_text : FlatText) → All (AllowsTheSame flat_text) (design_of_flat_text flat_text).defs }
{}

/// So each definition of the design of a text without faults of names, whose statements and claims are right in this sense, allows what the text allows.
pub fn definitions_allow_as_the_text()
    ensures { (text : Text) → first_fault text ≡ None → TextIsRight text → All (AllowsAsTheText text) (design_of_flat_text (flatten text)).defs }
{}

/// And an element whose family has no definition in a layer, or outside layers, is free there.
pub fn what_has_no_definition_is_free()
    ensures { (flat_text : FlatText) → IsFreeWithout flat_text (design_of_flat_text flat_text).defs }
{}

/// No family has two definitions in one definition set.
pub fn definitions_are_apart()
    ensures { (flat_text : FlatText) → AreApart (design_of_flat_text flat_text).defs }
{}

/// The definitions stand in the order of their places in flat order.
pub fn definitions_are_in_order()
    ensures { (flat_text : FlatText) → AreInOrder (design_of_flat_text flat_text).defs }
{}

// Laws of the places of flattened texts, each the contract of a function that does nothing.
ghost use Rattle.law_fault_places.specs.FlatPlaces.{FlattenedTextsAreWithin, DesignsAreWithin};

/// The flattened text of a text with its places within a number has its places within it.
pub fn flattened_texts_are_within()
    ensures { FlattenedTextsAreWithin }
{}

/// So has the design of a flattened text.
pub fn designs_are_within()
    ensures { DesignsAreWithin }
{}

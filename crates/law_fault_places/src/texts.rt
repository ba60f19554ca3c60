// Laws of the places of faults, each the contract of a function that does nothing.
ghost use Rattle.law_fault_places.specs.FaultsOfTexts.{TreesOfTextsAreWithin, FaultsAreWithin, RefusalsTellFaults, DocumentRefusalsTellFaults, PlacesAreCarriedBack, InductionRefusalsTellFaults, FormulaRefusalsTellFaults};

use crate::flat::{designs_are_within, flattened_texts_are_within};
use crate::passes::pass_faults_are_within;
use crate::trees::spelled_trees_are_within;
use law_formula_places::laws::{refusals_are_within, translations_are_carried_back};
use law_strengthened_texts::laws::stronger_is_placed;
use smv_parse::one_answer;

/// Each word, number and sign of the tree that a text spells stands within the text.
pub fn trees_of_texts_are_within()
    ensures { TreesOfTextsAreWithin }
{
    spelled_trees_are_within();
}

/// The first fault of a text under a command has a number of 1 to 31, or for the sizes of a confirmation 34 or 35, and a place of at most the text's length.
pub fn faults_are_within()
    ensures { FaultsAreWithin }
{
    one_answer();
    trees_of_texts_are_within();
    pass_faults_are_within();
    flattened_texts_are_within();
    designs_are_within();
}

/// An offset of a strengthened text is carried back into the text that was read.
pub fn places_are_carried_back()
    ensures { PlacesAreCarriedBack }
{
    trees_of_texts_are_within();
    stronger_is_placed();
}

/// A refusal that is due tells a fault of such a number and place; one of an induction may tell 36 at the front, and one of formulas over several times 37 at such a place.
pub fn refusals_tell_faults()
    ensures texts { RefusalsTellFaults }
    ensures documents { DocumentRefusalsTellFaults }
    ensures inductions { InductionRefusalsTellFaults }
    ensures formulas { FormulaRefusalsTellFaults }
{
    one_answer();
    faults_are_within();
    places_are_carried_back();
    refusals_are_within();
    translations_are_carried_back();
}

// Laws of units of texts at given sizes, each the contract of a function that does nothing.
ghost use Rattle.law_sized_texts.specs.Texts.{HoldsInText, ShortestPathsAreRealInText, UnitsAreOfTexts};

use crate::sized::{designs_are_exact, elements_of_texts_are_chosen};
use law_designs::flattening::{families_are_the_same, statements_are_the_same};
use law_designs::single_assignment::definitions_allow_as_the_text;
use law_designs::well_kinded::{
    claims_are_the_same, expressions_are_right, spelled_texts_are_written,
};
use law_flat_kinds::families_are_found;
use law_sound_texts::behaviours::layers_are_same;
use law_sound_texts::left_sides::left_sides_are_exact;
use law_sound_texts::sound_texts::{
    runs_of_designs_are_runs_of_texts, runs_of_texts_are_runs_of_designs,
};

/// Where no case of a unit has a violating path at given sizes, no run of these sizes breaks an instance of the unit.
pub fn holds_in_text()
    ensures { HoldsInText }
{
    designs_are_exact();
    runs_of_texts_are_runs_of_designs();
    runs_of_designs_are_runs_of_texts();
    families_are_the_same();
    families_are_found();
    spelled_texts_are_written();
    expressions_are_right();
    definitions_allow_as_the_text();
    claims_are_the_same();
}

/// A shortest violating path of a case is the part, on the elements of the case, of a run of these sizes in which the case's instance fails at the last time, and no shorter run breaks it.
pub fn shortest_paths_are_real_in_text()
    ensures { ShortestPathsAreRealInText }
{
    designs_are_exact();
    elements_of_texts_are_chosen();
    runs_of_texts_are_runs_of_designs();
    runs_of_designs_are_runs_of_texts();
    families_are_the_same();
    families_are_found();
    spelled_texts_are_written();
    expressions_are_right();
    definitions_allow_as_the_text();
    claims_are_the_same();
}

/// Each unit of the design of a text is one of the text.
pub fn units_are_of_texts()
    ensures { UnitsAreOfTexts }
{
    layers_are_same();
    left_sides_are_exact();
    families_are_the_same();
    families_are_found();
    statements_are_the_same();
    spelled_texts_are_written();
    expressions_are_right();
    definitions_allow_as_the_text();
    claims_are_the_same();
}

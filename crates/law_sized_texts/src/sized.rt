// Laws of texts at given sizes, each the contract of a function that does nothing.
ghost use Rattle.law_sized_texts.specs.Laws.{DesignsAreExact, ElementsOfTextsAreChosen};

use law_flat_kinds::flattened_texts_are_kinded;
use law_problems::fit_designs::{constants_are_distinct, designs_are_fit};
use law_sound_texts::checked_scripts::scripts_are_checked;
use law_sound_texts::extension::{elements_are_chosen, left_sides_stay_whole};
use law_sound_texts::left_sides::left_sides_have_no_fewer;

/// The design of a text without a fault of names, size, kinds, single assignment and set types is exact at all its sizes.
pub fn designs_are_exact()
    ensures { DesignsAreExact }
{
    scripts_are_checked();
    flattened_texts_are_kinded();
    designs_are_fit();
    constants_are_distinct();
}

/// And where it has no fault of loops and layers either, any of its elements can be chosen after each state.
pub fn elements_of_texts_are_chosen()
    ensures { ElementsOfTextsAreChosen }
{
    elements_are_chosen();
    left_sides_stay_whole();
    left_sides_have_no_fewer();
}

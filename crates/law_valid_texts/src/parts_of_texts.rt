// Laws of texts and the leaves of their plans, each the contract of a function that does nothing.
ghost use Rattle.law_valid_texts.specs.PartLaws.{LeavesAreInPlace, LeavesAreParts, CasesAreOfLeaves, LeavesHaveFewCases, LeavesHaveRoom, PlansAreWhole};

use crate::plans_of_texts::{faultless_texts_pass, plans_are_checked};
use crate::true_reports::well_kinded_are_ready;
use law_flat_kinds::flattened_texts_are_kinded;
use law_problems::fit_designs::{constants_are_distinct, designs_are_fit};
use law_problems::guard_kinds::guards_have_kinds;
use law_reports::plan_cases::parts_are_entries;

/// Each leaf of a plan is that of the unit at its place.
pub fn leaves_are_in_place()
    ensures { LeavesAreInPlace }
{}

/// Each leaf of a plan of a text without a fault of the passes up to cases, with its choice, is one that the calls on a leaf take.
pub fn leaves_are_parts()
    ensures { LeavesAreParts }
{
    leaves_are_in_place();
    parts_are_entries();
    faultless_texts_pass();
    plans_are_checked();
    well_kinded_are_ready();
    flattened_texts_are_kinded();
    designs_are_fit();
    constants_are_distinct();
    guards_have_kinds();
}

/// Each case of a leaf without fault 29 is one of which the calls on a case speak.
pub fn cases_are_of_leaves()
    ensures { CasesAreOfLeaves }
{}

/// No leaf of a plan of such a text has fault 29.
pub fn leaves_have_few_cases()
    ensures { LeavesHaveFewCases }
{}

/// And each has room, where no case has fault 30.
pub fn leaves_have_room()
    ensures { LeavesHaveRoom }
{
    leaves_have_few_cases();
}

/// So the plan of such a text is ready to be decided.
pub fn plans_are_whole()
    ensures { PlansAreWhole }
{
    leaves_are_in_place();
    leaves_are_parts();
    leaves_have_room();
}

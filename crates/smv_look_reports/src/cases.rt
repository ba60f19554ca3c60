// The law of cases, the contract of a function that does nothing.
ghost use Rattle.smv_look_reports.specs.Cases.{RightResultsHaveCases};

use law_valid_texts::parts_of_texts::cases_are_of_leaves;

/// The right results of the units of a whole plan are as many as these, and a unit that is false or unknown is so in one of its cases.
pub fn right_results_have_cases()
    ensures { RightResultsHaveCases }
{
    cases_are_of_leaves();
}

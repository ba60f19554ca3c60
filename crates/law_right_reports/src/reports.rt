// Laws of right reports, each the contract of a function that does nothing.
ghost use Rattle.law_right_reports.specs.ReportLaws.{ReportsNameUnits, TrueUnitsHaveInvariants, TrueUnitHasInvariants};

use crate::texts::units_of_valid_texts;
use law_sound_texts::checked_scripts::scripts_are_checked;
use law_splits::leaves::leaves_are_split;
use law_valid_texts::true_reports::well_kinded_are_ready;
use law_valid_texts::valid_texts::valid_texts_pass;
use law_verdicts::true_verdicts::true_verdicts_have_invariants;

/// A right report of a valid text has a result for each of the text's units, in the text's order and under its name.
pub fn right_reports_name_units()
    ensures { ReportsNameUnits }
{
    units_of_valid_texts();
}

/// Where a right report of a valid text, or of one of its units, tells a unit true, each case of the unit has a set of states that meets the four conditions of induction.
pub fn true_units_have_invariants()
    ensures reports { TrueUnitsHaveInvariants }
    ensures alone { TrueUnitHasInvariants }
{
    valid_texts_pass();
    well_kinded_are_ready();
    leaves_are_split();
    scripts_are_checked();
    true_verdicts_have_invariants();
}

// Laws of valid texts, each the contract of a function that does nothing.
ghost use Rattle.law_right_reports.specs.TextLaws.{TextsHaveTheirUnits, TextsHaveTheirNames, LeavesHoldAsUnits};

use law_units::leaves::units_hold_by_leaves;
use law_units::units_of_texts::units_are_the_same;
use law_valid_texts::true_reports::well_kinded_are_ready;
use law_valid_texts::valid_texts::valid_texts_pass;

/// The units of a valid text are those of its design, in the same order and with the same names; and each unit always holds exactly where its leaf does, the end of its chain of splits.
pub fn units_of_valid_texts()
    ensures units { TextsHaveTheirUnits }
    ensures names { TextsHaveTheirNames }
    ensures leaves { LeavesHoldAsUnits }
{
    valid_texts_pass();
    well_kinded_are_ready();
    units_are_the_same();
    units_hold_by_leaves();
}

// Laws of confirmations, each the contract of a function that does nothing.
ghost use Rattle.law_confirmed.specs.Answers.{ConfirmedTrueHolds, ConfirmedFalseIsReal};

use crate::confirmed::{false_is_real, true_holds};
use law_concrete::sizes::given_are_sizes;
use law_sized_texts::texts::units_are_of_texts;
use law_sound_texts::left_sides::set_types_are_apart;
use law_valid_texts::plans_of_texts::valid_texts_are_faultless;
use law_valid_texts::true_reports::well_kinded_are_ready;

/// Where a unit is confirmed true at given sizes, no run of these sizes breaks an instance of it.
pub fn confirmed_true_holds()
    ensures { ConfirmedTrueHolds }
{
    valid_texts_are_faultless();
    set_types_are_apart();
    well_kinded_are_ready();
    given_are_sizes();
    units_are_of_texts();
    true_holds();
}

/// Where it is confirmed false the path is the part, on its elements, of a run of these sizes in which the case's instance fails at the last time, and no shorter run breaks it.
pub fn confirmed_false_is_real()
    ensures { ConfirmedFalseIsReal }
{
    valid_texts_are_faultless();
    set_types_are_apart();
    well_kinded_are_ready();
    given_are_sizes();
    units_are_of_texts();
    false_is_real();
}

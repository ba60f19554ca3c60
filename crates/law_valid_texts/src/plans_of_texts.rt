// Laws of texts and their plans, each the contract of a function that does nothing.
ghost use Rattle.law_valid_texts.specs.PlanLaws.{ValidTextsAreFaultless, FaultlessTextsPass, PlansAreChecked, PlansHaveValues, ProvedPlansAreSound};

use crate::true_reports::well_kinded_are_ready;
use law_sound_texts::checked_scripts::scripts_are_checked;
use law_sound_texts::sound_texts::proved_texts_are_sound;
use law_splits::leaves::leaves_are_split;

/// No pass up to cases finds a fault in a valid text.
pub fn valid_texts_are_faultless()
    ensures { ValidTextsAreFaultless }
{}

/// A text in which none of them finds one is fit for proof.
pub fn faultless_texts_pass()
    ensures { FaultlessTextsPass }
{}

/// The script of each plan of such a text is as the soundness of the search asks, and its set types have values.
pub fn plans_are_checked()
    ensures checked { PlansAreChecked }
    ensures values { PlansHaveValues }
{
    faultless_texts_pass();
    well_kinded_are_ready();
    leaves_are_split();
    scripts_are_checked();
}

/// So such a text is sound where no case of a leaf of its plan has a violating path.
pub fn proved_plans_are_sound()
    ensures { ProvedPlansAreSound }
{
    faultless_texts_pass();
    well_kinded_are_ready();
    leaves_are_split();
    proved_texts_are_sound();
}

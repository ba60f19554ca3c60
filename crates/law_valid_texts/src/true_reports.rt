// Laws of texts, each the contract of a function that does nothing.
ghost use Rattle.law_valid_texts.specs.Joined.{TrueTextsAreSound, TrueReportsAreSound, WellKindedAreReady};

use law_flat_kinds::flattened_texts_are_kinded;
use law_reports::reports::reports_tell;
use law_reports::verdicts::true_scripts_are_sound;
use law_sound_texts::checked_scripts::scripts_are_checked;
use law_sound_texts::sound_texts::proved_texts_are_sound;
use law_splits::leaves::leaves_are_split;

/// The design of a text without a fault of names, size and kinds is as the laws of leaves and of bits ask.
pub fn well_kinded_are_ready()
    ensures { WellKindedAreReady }
{
    flattened_texts_are_kinded();
}

/// A text that is spelled and has no fault of its passes, for each unit of which the search finds that its leaf is true, is sound.
pub fn true_texts_are_sound()
    ensures { TrueTextsAreSound }
{
    well_kinded_are_ready();
    scripts_are_checked();
    leaves_are_split();
    true_scripts_are_sound();
    proved_texts_are_sound();
}

/// So is one of which a right report says that every unit is true.
pub fn true_reports_are_sound()
    ensures { TrueReportsAreSound }
{
    true_texts_are_sound();
    reports_tell();
}

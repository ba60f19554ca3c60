// Laws of the places of texts with formulas, each the contract of a function that does nothing.
ghost use Rattle.law_formula_places.specs.Laws.{RefusalsAreWithin, TranslationsAreCarriedBack};

use smv_parse::one_answer;

/// Why a text is not translated is told at a place of at most its length.
pub fn refusals_are_within()
    ensures { RefusalsAreWithin }
{
    one_answer();
}

/// Each offset of a translation, its end included, is carried back into the text that was read.
pub fn translations_are_carried_back()
    ensures { TranslationsAreCarriedBack }
{}

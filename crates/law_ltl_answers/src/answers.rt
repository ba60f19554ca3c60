// Laws of what is owed to the command `ltl`, each the contract of a function that does nothing.
ghost use Rattle.law_ltl_answers.specs.Laws.{NotBothTranslated, OneRefusal, OneLtlStatus, OneLtlAnswer, ProvedFormulasAreSound};

use law_exact_translations::laws::{translations_are_exact, translations_are_one};
use law_translated_bytes::laws::translations_are_spelled;
use law_valid_texts::plans_of_texts::valid_texts_are_faultless;
use law_valid_texts::valid_texts::{one_tree, reports_agree, right_reports_are_sound};
use smv_parse::one_answer;

/// A text has one translation, or one reason why it has none.
pub fn one_refusal()
    ensures not_both { NotBothTranslated }
    ensures one { OneRefusal }
{}

/// One status is due to a text with formulas beside one that leaves it open, and one answer too where no unit is false.
pub fn one_ltl_due()
    ensures status { OneLtlStatus }
    ensures answer { OneLtlAnswer }
{
    one_answer();
    one_refusal();
    one_tree();
    reports_agree();
    translations_are_one();
}

/// Where it is due that each unit is true, the text is sound over times.
pub fn proved_formulas_are_sound()
    ensures { ProvedFormulasAreSound }
{
    right_reports_are_sound();
    translations_are_exact();
    translations_are_spelled();
    valid_texts_are_faultless();
}

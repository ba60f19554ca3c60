// Laws of answers, each the contract of a function that does nothing.
ghost use Rattle.law_answers.specs.Laws.{CheckedDocumentIsSound, DocumentedTextIsSound, FormulaTextIsSound, HoldsHereIsSo, InductedTextIsSound, OneStatus, ProvedIsSound, RealIsSo, ResumedDocumentIsSound, UnreadIsDue};

use law_confirmed::confirmations::{confirmed_false_is_real, confirmed_true_holds};
use law_document_answers::documents::{due_is_sound, one_due};
use law_induct_answers::answers::{inducted_is_sound, one_induction_due};
use law_ltl_answers::answers::{one_ltl_due, proved_formulas_are_sound};
use law_valid_texts::valid_texts::{one_tree, reports_agree, right_reports_are_sound};
use smv_parse::one_answer;

/// One status is due to words and a text, beside one that leaves it open.
pub fn one_status()
    ensures { OneStatus }
{
    one_answer();
    one_tree();
    reports_agree();
    one_due();
    one_induction_due();
    one_ltl_due();
}

/// The headline: where it is due that all is proved, the text is sound.
pub fn proved_is_sound()
    ensures { ProvedIsSound }
{
    right_reports_are_sound();
}

/// Where it is due that a document is written, checked or resumed, its design is sound.
pub fn documents_are_sound()
    ensures documented { DocumentedTextIsSound }
    ensures checked { CheckedDocumentIsSound }
    ensures resumed { ResumedDocumentIsSound }
{
    due_is_sound();
}

/// Where it is due that a text is proved by induction, it is sound.
pub fn induction_is_sound()
    ensures { InductedTextIsSound }
{
    inducted_is_sound();
}

/// Where it is due that a text is proved with its formulas over several times, it is sound over times.
pub fn formulas_are_sound()
    ensures { FormulaTextIsSound }
{
    proved_formulas_are_sound();
}

/// Where it is due that a unit holds at the given sizes, no run of them breaks an instance of it; where that it is real, the part of such a run is shown that breaks one, and no shorter run does.
pub fn confirmed_is_so()
    ensures holds { HoldsHereIsSo }
    ensures real { RealIsSo }
{
    confirmed_true_holds();
    confirmed_false_is_real();
    one_tree();
}

/// What is due to words that read nothing is due to them with any text.
pub fn unread_is_due()
    ensures { UnreadIsDue }
{}

// Laws of answers, each the contract of a function that does nothing.
ghost use Rattle.law_answers.specs.OneAnswer.{OneAnswer};

use law_document_answers::documents::one_due;
use law_induct_answers::answers::one_induction_due;
use law_ltl_answers::answers::one_ltl_due;
use law_valid_texts::valid_texts::{one_tree, reports_agree};
use smv_parse::one_answer as one_parse;

/// Where no path is shown and nothing is left open, one answer is due to words and a text.
pub fn one_answer()
    ensures { OneAnswer }
{
    one_parse();
    one_tree();
    reports_agree();
    one_due();
    one_induction_due();
    one_ltl_due();
}

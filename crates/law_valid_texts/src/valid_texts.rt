// Laws of valid texts, each the contract of a function that does nothing.
ghost use Rattle.law_valid_texts.specs.Laws.{OneTree, ValidTextsPass, RightReportsAreSound, OneReport, OneUnitReport, UnitsAreOrAreNot};

use crate::true_reports::true_reports_are_sound;
use law_grammar::laws::one_text;
use law_reports::reports::reports_tell;
use law_reports::verdicts::one_verdict;

/// A text spells one tree.
pub fn one_tree()
    ensures { OneTree }
{
    one_text();
}

/// A valid text is fit for proof.
pub fn valid_texts_pass()
    ensures { ValidTextsPass }
{}

/// A valid text of which a right report says that every unit is true is sound.
pub fn right_reports_are_sound()
    ensures { RightReportsAreSound }
{
    valid_texts_pass();
    true_reports_are_sound();
}

/// Two right reports of a text tell the same, over near bits beside what one of them leaves unknown; so do two of one unit of it, and a text has not both a unit of a name and none.
pub fn reports_agree()
    ensures texts { OneReport }
    ensures units { OneUnitReport }
    ensures either { UnitsAreOrAreNot }
{
    one_tree();
    reports_tell();
    one_verdict();
}

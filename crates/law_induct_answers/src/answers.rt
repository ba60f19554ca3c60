// Laws of what is owed to the prover by induction, each the contract of a function that does nothing.
ghost use Rattle.law_induct_answers.specs.Laws.{OneInductAnswer, OneInductStatus, InductedIsSound, StrengthenedIsSound};

use law_checked_proofs::resumed::resumed_proofs_are_checked;
use law_events::verdicts::one_verdict;
use law_inductive_texts::laws::{induction_is_sound, one_stronger};
use law_valid_texts::plans_of_texts::valid_texts_are_faultless;
use law_valid_texts::valid_texts::{one_tree, right_reports_are_sound};
use smv_parse::one_answer;

/// One status is due to an induction on a text, and one answer too where no unit is false.
pub fn one_induction_due()
    ensures status { OneInductStatus }
    ensures answer { OneInductAnswer }
{
    one_answer();
    one_stronger();
    one_tree();
    one_verdict();
    resumed_proofs_are_checked();
}

/// A valid text is sound where its strengthened text is valid and sound; so it is where it is due that each unit of the strengthened text is true.
pub fn inducted_is_sound()
    ensures strengthened { StrengthenedIsSound }
    ensures inducted { InductedIsSound }
{
    induction_is_sound();
    one_answer();
    right_reports_are_sound();
    valid_texts_are_faultless();
}

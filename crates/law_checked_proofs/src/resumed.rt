// Laws of what is resumed, each the contract of a function that does nothing.
ghost use Rattle.law_checked_proofs.specs.ResumedLaws.{ResumedProofsAreChecked, ResumedTextsAreSound, OneResumedProof, ResumedProofsAreOfTrueTexts, NothingIsResumed, NothingIsReported};

use crate::checked::checked_proofs_are_sound;
use law_events::verdicts::one_verdict;
use law_valid_texts::valid_texts::one_tree;
use smv_proof::laws::kept_sets_mean;

/// The proof that is resumed from old sets is a checked one, so its text is sound; there is one at most, only
/// where each unit is told true, and without old sets it is the proof of the text, and a report of what is resumed is a right one.
pub fn resumed_proofs_are_checked()
    ensures checked { ResumedProofsAreChecked }
    ensures sound { ResumedTextsAreSound }
    ensures one { OneResumedProof }
    ensures true_texts { ResumedProofsAreOfTrueTexts }
    ensures nothing { NothingIsResumed }
    ensures reports { NothingIsReported }
{
    checked_proofs_are_sound();
    kept_sets_mean();
    one_tree();
    one_verdict();
}

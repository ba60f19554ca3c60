// Laws of the proof of a text, each the contract of a function that does nothing.
ghost use Rattle.law_checked_proofs.specs.KeptLaws.{KeptProofsAreChecked, OneProofOf};

use law_events::verdicts::one_verdict;
use law_valid_texts::valid_texts::one_tree;
use smv_proof::laws::kept_sets_mean;

/// The proof of a text is a checked one, and there is one at most.
pub fn kept_proofs_are_checked()
    ensures checked { KeptProofsAreChecked }
    ensures one { OneProofOf }
{
    kept_sets_mean();
    one_tree();
    one_verdict();
}

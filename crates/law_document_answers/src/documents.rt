// Laws of what is owed to the commands on proof documents, each the contract of a function that does nothing.
ghost use Rattle.law_document_answers.specs.Laws.{CheckedIsSound, DocumentedIsSound, OneDocumentAnswer, OneDocumentStatus, ResumedIsSound};

use law_checked_proofs::checked::checked_proofs_are_sound;
use law_checked_proofs::kept::kept_proofs_are_checked;
use law_checked_proofs::resumed::resumed_proofs_are_checked;
use law_events::verdicts::one_verdict;
use law_judgements::judgements::one_judgement;
use law_valid_texts::valid_texts::{one_tree, reports_agree};
use smv_parse::one_answer;
use smv_proof::laws::readings_are_spelled;

/// One status is due to a command on proof documents and its bytes, and one answer too where no unit is false.
pub fn one_due()
    ensures status { OneDocumentStatus }
    ensures answer { OneDocumentAnswer }
{
    kept_proofs_are_checked();
    resumed_proofs_are_checked();
    one_verdict();
    one_judgement();
    one_tree();
    reports_agree();
    one_answer();
    readings_are_spelled();
}

/// Where it is due that a document is written, checked or resumed, its design is sound.
pub fn due_is_sound()
    ensures documented { DocumentedIsSound }
    ensures checked { CheckedIsSound }
    ensures resumed { ResumedIsSound }
{
    checked_proofs_are_sound();
    kept_proofs_are_checked();
    resumed_proofs_are_checked();
    one_judgement();
}

// Laws of the proof of a text as a document, each the contract of a function that does nothing.
ghost use Rattle.law_kept_proofs.specs.Laws.{UnitNamesAreNames, CasesAreSmall, KeptProofsAreProofs, ResumedProofsAreProofs, KeptProofsAreJudged, ResumedProofsAreJudged};

use law_checked_proofs::kept::kept_proofs_are_checked;
use law_checked_proofs::resumed::resumed_proofs_are_checked;
use law_reports::case_lists::case_lists_are_lists;
use law_unit_names::laws::unit_names_are_visible;
use law_valid_texts::parts_of_texts::{leaves_are_in_place, leaves_have_room};
use law_valid_texts::plans_of_texts::valid_texts_are_faultless;
use smv_proof::laws::kept_sets_mean;

/// The cases of a valid text are named and numbered as a document names and numbers its sets, and have no more bits than a document has variables for.
pub fn cases_are_small()
    ensures names { UnitNamesAreNames }
    ensures small { CasesAreSmall }
{
    valid_texts_are_faultless();
    unit_names_are_visible();
    leaves_are_in_place();
    leaves_have_room();
}

/// What is kept of a valid text, anew or beside old sets, is a proof as a document spells it, where each set has few enough lines; and either document is judged with yes.
pub fn kept_proofs_are_proofs()
    ensures kept { KeptProofsAreProofs }
    ensures resumed { ResumedProofsAreProofs }
    ensures judged { KeptProofsAreJudged }
    ensures resumed_judged { ResumedProofsAreJudged }
{
    cases_are_small();
    case_lists_are_lists();
    kept_sets_mean();
    kept_proofs_are_checked();
    resumed_proofs_are_checked();
}

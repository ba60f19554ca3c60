//! What a call owes to the prover by induction: the status and the whole answer. What is due is one status, and one answer too where no unit is false; where it is due that a text is proved so, the text is sound.
//!
//! For `law_answers`, which says it of all commands. `specs/Dues` is the definition. Nothing here runs.
#![tactic(auto)]

pub mod answers;

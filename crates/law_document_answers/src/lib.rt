//! What a call owes to the commands that write, check and resume proof documents: the status and the whole answer, each with the words or the bytes that call for it.
//!
//! For `law_answers`, which says it of all commands. `specs/Dues` is the definition, `specs/Statuses` the status of a report. What is due is one status, and one answer too where no unit is false; where it is
//! due that a document is written, checked or resumed, its design is sound. Nothing here runs.
#![tactic(auto)]

pub mod documents;

//! What is so of valid texts and of their right reports, whole: the laws of `law_units` and `law_verdicts` with no premise but that the text is valid and the report right.
//!
//! For whoever relies on a report. `texts`: a text and its design have the same units, with the same names, and splitting a unit changes nothing of what is proved. `reports`: a right report names the
//! text's units in the text's order, and a unit that it tells true has an invariant in each of its cases.
#![tactic(auto)]

pub mod reports;
pub mod texts;

//! What a call of the command `ltl` owes, which proves a text whose claims are formulas: the status and the whole answer. What is due is one status, and one answer too where no unit is false, beside what near bits leave open;
//! where it is due that each unit is true, the text is sound over times.
//!
//! For `law_answers`, which says it of all commands. `specs/Dues` is the definition. Nothing here runs.
#![tactic(auto)]

pub mod answers;

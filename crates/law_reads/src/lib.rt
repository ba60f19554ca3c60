//! What is not read does not matter: where two states tell the same of all that an expression, a definition, a demand or a target reads, it is the same in both.
//!
//! For whoever leaves elements of a case out, or shows that nothing depends on one. `specs/Reading` says what is read, `specs/Laws` what is then the same, and `specs/Worked` why each condition is needed.
#![tactic(auto)]

pub mod reads;
pub mod worked;
